//! The search in which the judge looks at both cores, whose accesses may come to each other's stacks.
ghost use Rattle.std.specs.Prelude.{◌≡◌, true, IfOk};
ghost use Rattle.xt_map.specs.Placing.{IsPlaced};
ghost use Rattle.xt_trace.specs.Validity.{IsValid};
ghost use Rattle.xt_image.specs.ImageParts.{FitsImage};
ghost use Rattle.xt_core.specs.Runs.{memory_of};
ghost use Rattle.xt_discipline.specs.Verdicts.{are_checked};
ghost use Rattle.xt_judged.specs.Kept.{IsTree};
ghost use Rattle.xt_judged.specs.Runs.{AllAreWhole};
ghost use Rattle.xt_judged.specs.Searched.{IsSearch};

use crate::breaches::shows_some;
use crate::judging::{Judging, SceneDesk};
use crate::opening::open;
use crate::scene::Scene;
use std::alloc::{AllocError, Global};
use xt_image::Image;
use xt_outcomes::Timed;
use xt_search::{Graph, has_all, search};
use xt_trace::Options;

// How many turns a core makes alone at once.
const MOST_ALONE: u16 = 4096;

/// The machine of an image, and the scenes that were found.
pub struct JointSearch<'a> {
    pub machine: Judging<'a>,
    pub graph: Graph<Scene>,
}

// A `drop` of its own is one call at each place where a value is dropped.
impl Drop for JointSearch<'_> {
    fn drop(self) {
        let JointSearch {
            machine: _,
            graph: _,
        } = self;
    }
}

// The scenes that a machine of an image finds, at most so many. The only error is running out of memory.
fn searched(
    alloc: Global,
    machine: &Judging,
    image: &Image,
    options: &Options,
    timed: bool,
    desk: &mut SceneDesk,
    most: u32,
) -> Result<Graph<Scene>, AllocError>
    requires valid { IsValid options.now }
    requires fits { FitsImage image.now }
    requires code { machine.now.timed.code ≡ image.now.segments }
    requires memory { machine.now.timed.opening.contents ≡ memory_of image.now options.now }
    requires is_timed { machine.now.timed.timed ≡ timed }
    ensures search { IfOk result (λ g. IsSearch image.now options.now timed (record { machine = machine.now; graph = g })) }
    ensures tree { IfOk result (λ g. IsTree g) }
{
    let opening = open(alloc, image, options, timed)?;
    let graph = search(alloc, machine, desk, opening, most)?;
    Ok(graph)
}

/// The scenes of an image, at most so many. The only error is running out of memory.
///
/// Conditions: the options are valid, and the image's segments lie in one region each and share no
/// byte, as those of every image that was read.
pub fn search_scenes<'a>(
    alloc: Global,
    image: &'a Image,
    options: &Options,
    timed: bool,
    desk: &mut SceneDesk,
    most: u32,
) -> Result<JointSearch<'a>, AllocError>
    requires valid { IsValid options.now }
    requires fits { FitsImage image.now }
    requires placed { IsPlaced image.now.segments }
    ensures search { IfOk result (IsSearch image.now options.now timed) }
    ensures tree { IfOk result (λ s. IsTree s.graph) }
{
    let machine = Judging {
        timed: Timed::plain(alloc, image, options, timed)?,
        most_alone: MOST_ALONE,
        alloc,
    };
    let graph = searched(alloc, &machine, image, options, timed, desk, most)?;
    Ok(JointSearch { machine, graph })
}

/// Whether the search has shown that no run has a breach.
pub fn is_whole(image: &Image, options: &Options, timed: bool, search: &JointSearch) -> bool
    requires search { IsSearch image.now options.now timed search.now }
    requires checked { are_checked image.now options.now ≡ true }
    ensures { result ≡ true → AllAreWhole image.now options.now timed }
{
    if shows_some(&search.graph) {
        return false;
    }
    has_all(&search.machine, &search.graph)
}
