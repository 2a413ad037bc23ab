//! The head of a recording, and how long its parts are.
ghost use Rattle.std.specs.Prelude.{◌≡◌, ◌<◌, length, IfSome, IsNone};
ghost use Rattle.xt_record.specs.Fields.{length_behind};
ghost use Rattle.xt_image.specs.Findings.{first};
ghost use Rattle.xt_record.specs.Rules.{head_rules, length_rules};
ghost use Rattle.xt_record.specs.Heads.{HasParts};

use crate::fault::RecordFault;
use crate::points::POINT_SIZE;
use xt_image::word;

const MOST_IMAGE: usize = 8_388_608;

// How long what follows the image is to be, or nothing where one of its counts is cut off.
#[tactic(auto, unfolding(crate::specs::Fields::checkpoint_size))]
fn length_asked(version: u32, rest: &[u8]) -> Option<usize>
    ensures whole { IfSome result (λ n. n ≡ length_behind version rest.now) }
    ensures cut { IsNone result → length rest.now < length_behind version rest.now }
{
    if rest.len() < 36 {
        return None;
    }
    let end = 36 + 20 * word(rest, 32) as usize;
    if version == 1 {
        return Some(end);
    }
    if rest.len() < end + 4 {
        return None;
    }
    Some(end + 4 + POINT_SIZE * word(rest, end) as usize)
}

// Whether what follows the image is too short or too long.
fn length_fault(version: u32, rest: &[u8]) -> Option<RecordFault>
    ensures { result ≡ first (length_rules version rest.now) }
{
    let Some(asked) = length_asked(version, rest) else {
        return Some(RecordFault::Short);
    };
    if rest.len() < asked {
        return Some(RecordFault::Short);
    }
    if rest.len() > asked {
        return Some(RecordFault::Trailing);
    }
    None
}

/// What is wrong with the head, or with how long the parts are.
pub(crate) fn head_fault(bytes: &[u8]) -> Option<RecordFault>
    ensures first { result ≡ first (head_rules bytes.now) }
    ensures parts { IsNone result → HasParts bytes.now }
{
    if bytes.len() < 12 {
        return Some(RecordFault::Short);
    }
    if bytes[..4] != [0x58, 0x54, 0x52, 0x43] {
        return Some(RecordFault::Magic);
    }
    let version = word(bytes, 4);
    if version != 1 && version != 2 {
        return Some(RecordFault::Version(version));
    }
    let len = word(bytes, 8) as usize;
    if len > MOST_IMAGE || bytes.len() < 12 + len {
        return Some(RecordFault::Short);
    }
    length_fault(version, &bytes[12 + len..])
}
