//! What is said of the secrets of a run of an image.
ghost use Rattle.std.specs.Prelude.{IfOk};
ghost use Rattle.xt_core.specs.Runs.{IsRunOf};
ghost use Rattle.xt_image.specs.ImageParts.{IsWellFormed};
ghost use Rattle.xt_rows.specs.RowLaws.{IsWord};
ghost use Rattle.xt_secret_walk.specs.Answers.{IsSecretsOf};
ghost use Rattle.xt_report.specs.SecretFindings.{AreKept, IsOnlyAnswer};

use std::alloc::{AllocError, Global};
use xt_image::{Image, well_formed_is_placed};
use xt_secret_walk::laws::secrets_are_one;
use xt_secret_walk::{Secrets, judge_secrets};
use xt_simulation::secret_laws::image_runs_are_same_up_to_the_leak;
use xt_trace::Run;

// A number of 32 bits is a word, by its type.
fn is_word(number: u32)
    ensures { IsWord number }
{}

/// What is said of the secrets of a run of an image: the first turn, in the order of the run's schedule, that uses a bit which depends
/// on a secret byte; or that there is none, and how many turns of each core left one in what they wrote. `secret` and `public` are
/// ranges of bytes, each its first address and how many bytes it has; a byte in a range of both is public. The only error is running
/// out of memory.
///
/// Conditions: the image is well formed, and the run is the image's.
///
/// No other answer is one of the run. Let memory open with any other bytes in the secret ranges, and make the turns of the run's
/// schedule from there: up to the leak that the answer names, or to the end, they are the same in all that is known, as far as they
/// store the same into the public bytes.
pub fn secrets_of(
    alloc: Global,
    image: &Image,
    run: &Run,
    secret: &[(u32, u32)],
    public: &[(u32, u32)],
) -> Result<Secrets, AllocError>
    requires image { IsWellFormed image.now }
    requires run { IsRunOf image.now run.now }
    ensures secrets { IfOk result (IsSecretsOf image.now run.now secret.now public.now) }
    ensures only { IfOk result (IsOnlyAnswer image.now run.now secret.now public.now) }
    ensures kept { IfOk result (AreKept image.now run.now secret.now public.now) }
{
    well_formed_is_placed();
    secrets_are_one();
    image_runs_are_same_up_to_the_leak();
    is_word(run.options.vecbase);
    is_word(run.options.entry1);
    let secrets = judge_secrets(alloc, image, run, secret, public)?;
    Ok(secrets)
}
