//! Laws of the machine of frames over any contents.
#![tactic(auto)]

ghost use Rattle.xt_simulation.specs.FillingLaws.{OwbIsTheFillings, RecordsAreFollowed, RegistersHaveNumbers, RunsAreDecided, UnknownDecidesNothing};

/// The machine over a filling has a number in each register.
pub fn registers_have_numbers()
    ensures { RegistersHaveNumbers }
{}

/// It steps on the filling's PS.OWB by the strict discipline, and on the record's by the lenient one.
pub fn owb_is_the_fillings()
    ensures { OwbIsTheFillings }
{}

/// Whatever stands where the machine of uses knows nothing, each judged step before the first
/// breach of uses does the same at the same place.
pub fn unknown_decides_nothing()
    ensures { UnknownDecidesNothing }
{}

/// Where the records are those of the machine of uses, each such step is that of its record.
pub fn records_are_followed()
    ensures { RecordsAreFollowed }
{}

/// In a run of an image whose window handlers pass their check, and whose stacks are apart, nothing
/// that is not known decides a place, an access or a byte sent before the first breach of uses.
pub fn runs_are_decided()
    ensures { RunsAreDecided }
{}
