//! A breach in words.
ghost use Rattle.std.specs.Prelude.{◌≡◌, IfOk, string_bytes};
ghost use Rattle.xt_report.specs.Breaches.{breach_text, kind_text};

use std::alloc::{AllocError, Global};
use xt_frames::{Breach, BreachKind};

/// The name of a kind of breach.
pub fn kind_text(kind: BreachKind) -> &'static str
    ensures { result.now ≡ kind_text kind }
{
    match kind {
        BreachKind::Unset => "Unset",
        BreachKind::SpWritten => "SpWritten",
        BreachKind::FrameSize => "FrameSize",
        BreachKind::StackRange => "StackRange",
        BreachKind::SpAlign => "SpAlign",
        BreachKind::OpeningCall => "OpeningCall",
        BreachKind::ReturnMismatch => "ReturnMismatch",
        BreachKind::NoCaller => "NoCaller",
        BreachKind::SaveStore => "SaveStore",
        BreachKind::StaleLoad => "StaleLoad",
        BreachKind::ExcmRegister => "ExcmRegister",
        BreachKind::WindowInstruction => "WindowInstruction",
        BreachKind::WindowRegister => "WindowRegister",
        BreachKind::WoeCleared => "WoeCleared",
        BreachKind::VecbaseMoved => "VecbaseMoved",
        BreachKind::EpcLost => "EpcLost",
        BreachKind::Movsp => "Movsp",
        BreachKind::VectorEntered => "VectorEntered",
        BreachKind::Nested => "Nested",
    }
}

/// A breach, `breach KIND core C step N`. The only error is running out of memory.
pub fn breach_text(alloc: Global, breach: Breach) -> Result<String, AllocError>
    ensures { IfOk result (λ text. string_bytes text ≡ breach_text breach) }
{
    let kind = kind_text(breach.kind);
    let core = breach.core;
    let step = breach.step;
    format!(in alloc; "breach {kind} core {core} step {step}")
}
