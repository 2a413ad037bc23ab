//! Orders after which the cores never both end.
ghost use Rattle.std.specs.Prelude.{◌≡◌, IfOk, IfSome, IfNone};
ghost use Rattle.xt_exec.specs.Chips.{processor};
ghost use Rattle.xt_core.specs.Runs.{code_of, opening_of};
ghost use Rattle.xt_trace.specs.Validity.{IsValid};
ghost use Rattle.xt_search.specs.Worlds.{IsOrder};
ghost use Rattle.xt_outcomes.specs.Outcomes.{CanAllEnd, IsStuck};
ghost use Rattle.xt_outcomes.specs.Searched.{IsComplete, IsSearch};

use crate::found::{Search, order_of};
use std::alloc::{AllocError, Global};
use xt_image::Image;
use xt_search::marks_of;
use xt_trace::Options;

/// An order after which the cores never both end; None: each order can be continued until they have.
/// The only error is running out of memory.
///
/// Conditions: the options are valid, the search came to its end, and its places are right.
pub fn stuck_of(
    alloc: Global,
    image: &Image,
    options: &Options,
    search: &Search,
) -> Result<Option<Vec<u8>>, AllocError>
    requires search { IsSearch image.now options.now search.now }
    requires valid { IsValid options.now }
    requires whole { IsComplete search.now }
    ensures order { IfOk result (λ r. IfSome r (λ v. IsOrder v.items)) }
    ensures stuck { IfOk result (λ r. IfSome r (λ v. IsStuck (processor (code_of image.now)) search.now.machine.timed (opening_of image.now options.now) v.items)) }
    ensures none { IfOk result (λ r. IfNone r (CanAllEnd (processor (code_of image.now)) search.now.machine.timed (opening_of image.now options.now))) }
{
    let marks = marks_of(alloc, &search.machine, &search.graph)?;
    for number in 0..marks.len() {
        if !marks[number] {
            let order = order_of(alloc, image, options, search, number)?;
            return Ok(Some(order));
        }
    }
    Ok(None)
}
