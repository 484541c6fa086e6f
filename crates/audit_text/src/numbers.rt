//! The number and the name of a fault.

ghost use Rattle.std.specs.Prelude.{◌≡◌};
ghost use Rattle.audit_text.specs.FaultNumbers.{name_of, number_of};

use snapshot::fault::Fault;

/// A fault's name.
pub(crate) fn name_of(fault: Fault) -> &'static str
    ensures { result.now ≡ name_of fault }
{
    match fault {
        Fault::BadShape => "BadShape",
        Fault::BadTop(_) => "BadTop",
        Fault::Loop => "Loop",
        Fault::BadLength { .. } => "BadLength",
        Fault::BadElem(_) => "BadElem",
        Fault::BadPacket => "BadPacket",
        Fault::DoubleHeader(_) => "DoubleHeader",
        Fault::Doubled(_) => "Doubled",
        Fault::Lost(_) => "Lost",
        Fault::BadCount { .. } => "BadCount",
        Fault::OutOfMemory => "OutOfMemory",
    }
}

/// Its number.
pub(crate) fn number_of(fault: Fault) -> u32
    ensures { result ≡ number_of fault }
{
    match fault {
        Fault::BadShape => 101,
        Fault::BadTop(_) => 102,
        Fault::Loop => 103,
        Fault::BadLength { .. } => 104,
        Fault::BadElem(_) => 105,
        Fault::BadPacket => 106,
        Fault::DoubleHeader(_) => 107,
        Fault::Doubled(_) => 108,
        Fault::Lost(_) => 109,
        Fault::BadCount { .. } => 110,
        Fault::OutOfMemory => 2,
    }
}
