//! A capture worked by hand, and ways of numbering that break a law. Each function ensures what the
//! definitions say of some captures, and its proof computes it.

ghost use Rattle.canon3.specs.Examples.{IsWorked, IsWrong, by_bytes, empty_numbered, exchange, exchange_entries, exchange_form, handles_anew, verifiers_anew, xids_across};
ghost use Rattle.canon3.specs.Summary.{IsSummary};

/// A GETATTR call and its reply.
pub fn getattr_exchange()
    ensures worked { IsWorked exchange exchange_entries exchange_form }
    ensures counts { IsSummary exchange
        (record { connections = 1; calls = 1; replies = 1; handles = 1 }) }
{}

/// Ways of numbering that break a law: handles anew in each connection, write verifiers anew in each
/// connection, xids across the capture, the empty handle numbered, handles in the order of their bytes.
pub fn wrong_forms()
    ensures handles_anew { IsWrong handles_anew }
    ensures verifiers_anew { IsWrong verifiers_anew }
    ensures xids_across { IsWrong xids_across }
    ensures empty_numbered { IsWrong empty_numbered }
    ensures by_bytes { IsWrong by_bytes }
{}
