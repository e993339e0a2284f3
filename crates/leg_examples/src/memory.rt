// How much memory a search is lent.
use cost::byte::ByteCost;
use cost::line::LineCost;
use labels::label::Label;
use std::mem::size_of;

// A label takes at most sixteen bytes, by either cost.
const _: () = prove!(size_of::<Label<ByteCost>>() <= 16);

const _: () = prove!(size_of::<Label<LineCost>>() <= 16);
