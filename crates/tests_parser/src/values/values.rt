//! The variants that are exported by their own names. Contracts say what clones, equality and
//! defaults are.

use rustc_parse_format::{AlignCenter, Alignment, ArgumentIs, Count, CountIs, Position};

#[test]
fn variants_are_exported_by_name(rt: HostRuntime) {
    assert!(rt; matches!(Alignment::AlignCenter, AlignCenter));
    assert!(rt; matches!(Count::CountIs(3), CountIs(3)));
    assert!(rt; matches!(Position::ArgumentIs(4), ArgumentIs(4)));
}
