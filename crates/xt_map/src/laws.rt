//! Laws of memory, of histories and of the regions. Each is the contract of a function that does
//! nothing.
ghost use Rattle.xt_map.specs.MemoryLaws.{LongerHistoryIsOnePastMore, LegalGrows, LegalTestIsLaw, OfCoresGrows, LongerHistoryIsOneCallMore};
ghost use Rattle.xt_map.specs.MemoryLaws.{PutByteIsThere, PutByteKeepsOthers, PutByteKeepsSizes, AccessKeepsOtherBytes, AccessKeepsSizes, AccessSendsAtMostOneByte, OpeningHasSizes};
ghost use Rattle.xt_map.specs.MemoryLaws.{OverlapIsSharedByte};
ghost use Rattle.xt_map.specs.MemoryLaws.{IramIsRange, DramIsRange, RtcFastDataIsRange, RtcSlowIsRange};
ghost use Rattle.xt_map.specs.MemoryLaws.{RangeIsDram, RangeIsRtcFastData, RangeIsRtcSlow};

/// The memory after a history with one entry more is the memory after the others, past its access.
pub fn memory_of_longer_history()
    ensures { LongerHistoryIsOnePastMore }
{}

/// A legal history stays legal with one entry more whose reply is that of the memory after it.
pub fn one_entry_more_is_legal()
    ensures { LegalGrows }
{}

/// The test of a legal history is true exactly where the history is legal.
pub fn legal_test_is_law()
    ensures { LegalTestIsLaw }
{}

/// Entries of the two cores with one entry more of core 0 or 1 are entries of the two cores.
pub fn one_entry_more_is_of_cores()
    ensures { OfCoresGrows }
{}

/// One entry more is one more call of its core, and none of the other.
pub fn calls_of_longer_history()
    ensures { LongerHistoryIsOneCallMore }
{}

/// A byte that is put at an address of a memory region is read there.
pub fn byte_that_was_put()
    ensures { PutByteIsThere }
{}

/// A byte that is put at one address leaves the bytes at all others.
pub fn byte_of_other_address()
    ensures { PutByteKeepsOthers }
{}

/// A byte that is put keeps the sizes of the memory regions.
pub fn byte_put_keeps_sizes()
    ensures { PutByteKeepsSizes }
{}

/// An access leaves every byte before its address and after its last byte.
pub fn stores_keep_other_bytes()
    ensures { AccessKeepsOtherBytes }
{}

/// An access keeps the sizes of the memory regions.
pub fn access_keeps_sizes()
    ensures { AccessKeepsSizes }
{}

/// The opening memory has the sizes of the memory regions.
pub fn opening_has_sizes()
    ensures { OpeningHasSizes }
{}

/// The addresses of these regions lie in their ranges.
pub fn regions_as_ranges()
    ensures iram { IramIsRange }
    ensures dram { DramIsRange }
    ensures rtc_fast_data { RtcFastDataIsRange }
    ensures rtc_slow { RtcSlowIsRange }
{}

/// The addresses of these ranges are of their regions.
pub fn ranges_as_regions()
    ensures dram { RangeIsDram }
    ensures rtc_fast_data { RangeIsRtcFastData }
    ensures rtc_slow { RangeIsRtcSlow }
{}

/// An access sends at most one byte.
pub fn access_sends_at_most_one_byte()
    ensures { AccessSendsAtMostOneByte }
{}

/// Two segments overlap exactly where both have a byte at some address.
pub fn overlap_is_a_shared_byte()
    ensures { OverlapIsSharedByte }
{}
