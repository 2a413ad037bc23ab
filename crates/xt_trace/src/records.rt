ghost use Rattle.std.specs.Prelude.{◌≡◌, List, Option, Some};
ghost use Rattle.xt_trace.specs.declared.record.StepRecord.{StepRecord};
ghost use Rattle.xt_trace.specs.Left.{first_of, rest_of};

use crate::record::StepRecord;

/// The records of a trace that are left, which are given one by one.
pub trait Records {
    ghost left: { Self → List StepRecord };

    /// The first of the records that are left, which it takes away; none exactly where none is left.
    fn next(&mut self) -> Option<StepRecord>
        ensures first { result ≡ first_of (left self.old) }
        ensures rest { left self.new ≡ rest_of (left self.old) };
}
