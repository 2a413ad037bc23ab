//! Laws of every order as the judge sees it, and of what is printed of all orders. Each is the contract of a
//! function that does nothing.
ghost use Rattle.xt_judged.specs.Laws.{AllAreWholeWhereNoSceneBreaks};
ghost use Rattle.xt_judged.specs.OrderText.{RowsMakeTheOrder};
ghost use Rattle.xt_judged.specs.RaceLines.{PrintsAsTrace};

/// If no scene that an image's turns lead to shows a breach, and where it is not timed none comes to a turn that
/// uses time, the verdict of every run of the image is whole.
#[tactic(auto, using(crate::proofs::Whole::all_are_whole))]
pub fn all_are_whole_where_no_scene_breaks()
    ensures { AllAreWholeWhereNoSceneBreaks }
{}

/// The rows that are printed of an order have its turns, one by one.
#[tactic(auto, using(crate::proofs::Rows::rows_make))]
pub fn rows_make_the_order()
    ensures { RowsMakeTheOrder }
{}

/// The line of a turn that makes an access is the one that `trace` prints of it.
#[tactic(auto, using(crate::proofs::Windows::prints_as_trace))]
pub fn race_lines_are_of_trace()
    ensures { PrintsAsTrace }
{}
