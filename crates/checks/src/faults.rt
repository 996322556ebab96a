// The first fault among the cells that a loss call reads, with its place: columns ascending, in each an empty prefix first, then
// the rows ascending, then a prefix's target.
mod card;
mod prefix;
