//! What stands on the cores' stacks as a run opens.
ghost use Rattle.std.specs.Prelude.{◌≡◌};
ghost use Rattle.xt_trace.specs.Validity.{IsValid};
ghost use Rattle.xt_core.specs.Runs.{stack_words};

use xt_trace::Options;

/// The word of each core's stack that memory holds as a run opens, with its address: 76 below the
/// end of the stack stands its end.
///
/// Condition: the options are valid.
pub fn stack_links(options: &Options) -> [(u32, u32); 2]
    requires { IsValid options.now }
    ensures { result ≡ stack_words options.now }
{
    [
        (options.stack0.hi - 76, options.stack0.hi),
        (options.stack1.hi - 76, options.stack1.hi),
    ]
}
