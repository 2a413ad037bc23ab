//! Runs of an image, with what is found of them.
ghost use Rattle.std.specs.Prelude.{◌≡◌, ◌<◌, All, IfOk, IfSome, None, Some, option_map};
ghost use Rattle.xt_runs.specs.Runs.{IsRunOfImage, cores_for, cores_of_options};
ghost use Rattle.xt_image.specs.ImageParts.{IsWellFormed};
ghost use Rattle.xt_command_line.specs.Options.{AreValid};

use std::alloc::{AllocError, Global};
use std::sync::Wait;
use std::thread::Threads;
use xt_command_line::{RunOptions, TurnOrder, cores_of};
use xt_gen::seeded_order;
use xt_image::{Image, well_formed_by_rules};
use xt_io::Gate;
use xt_machine::{run, run_is_that_of_its_schedule, run_schedule};
use xt_report::run_is_framed;
use xt_trace::Run;

// The list of cores that an order stands for, with so many turns for both cores; none stands for two threads.
fn cores_for(alloc: Global, order: &TurnOrder, count: u32) -> Result<Option<Vec<u8>>, AllocError>
    ensures list { IfOk result (λ cores. option_map (λ c. c.items) cores ≡ cores_for order.now count) }
    ensures cores { IfOk result (λ cores. IfSome cores (λ c. All (λ core. core < 2) c.items)) }
{
    match order {
        TurnOrder::Free => Ok(None),
        TurnOrder::Seeded(seed) => {
            let cores = seeded_order(alloc, *seed, count)?;
            Ok(Some(cores))
        }
        TurnOrder::Listed(list) => {
            let cores = cores_of(alloc, list.as_slice())?;
            Ok(Some(cores))
        }
    }
}

// The run of an image in the order of a list of cores, which the words ask for.
fn run_over(
    alloc: Global,
    options: &RunOptions,
    image: &Image,
    cores: &[u8],
) -> Result<Run, AllocError>
    requires valid { AreValid options.now }
    requires asked { cores_of_options options.now ≡ Some cores.now }
    requires cores { All (λ core. core < 2) cores.now }
    requires image { IsWellFormed image.now }
    ensures { IfOk result (λ run. IsRunOfImage options.now image.now run) }
{
    well_formed_by_rules();
    run_is_that_of_its_schedule();
    let at = options.with_entry(image.entry);
    let made = run_schedule(alloc, image, &at, cores)?;
    run_is_framed(image, &made);
    Ok(made)
}

// The run of an image with the options of the words, on two threads.
fn run_free<G: Gate, R: Threads + Wait + Sync>(
    rt: &R,
    alloc: Global,
    options: &RunOptions,
    image: &Image,
    gate: &G,
) -> Result<Run, AllocError>
    requires valid { AreValid options.now }
    requires free { cores_of_options options.now ≡ None }
    requires image { IsWellFormed image.now }
    ensures { IfOk result (λ run. IsRunOfImage options.now image.now run) }
{
    well_formed_by_rules();
    let options = options.with_entry(image.entry);
    let made = run(rt, alloc, image, &options, gate)?;
    run_is_framed(image, &made);
    Ok(made)
}

/// The run of an image with the options of the words.
///
/// Conditions: the options are valid, and the image is well formed.
pub(crate) fn run_image<G: Gate, R: Threads + Wait + Sync>(
    rt: &R,
    alloc: Global,
    options: &RunOptions,
    image: &Image,
    gate: &G,
) -> Result<Run, AllocError>
    requires valid { AreValid options.now }
    requires image { IsWellFormed image.now }
    ensures { IfOk result (λ run. IsRunOfImage options.now image.now run) }
{
    well_formed_by_rules();
    match cores_for(alloc, &options.order, options.turns0 + options.turns1)? {
        Some(cores) => run_over(alloc, options, image, &cores),
        None => run_free(rt, alloc, options, image, gate),
    }
}
