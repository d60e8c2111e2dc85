// What the three forms have of their own.
use crate::packing::Side;

/// A byte form: the two sides of its packing, what its fields are below, and how a field becomes a coefficient:
/// so many times the step, less the lowest.
#[derive(Clone, Copy)]
pub(crate) struct Form {
    pub(crate) fields: Side,
    pub(crate) bytes: Side,
    pub(crate) bound: u64,
    pub(crate) step: u64,
    pub(crate) lowest: u64,
}

pub(crate) const SMALL: Form = Form {
    fields: Side {
        base: 4,
        group: 4,
        count: 762,
    },
    bytes: Side {
        base: 256,
        group: 1,
        count: 191,
    },
    bound: 3,
    step: 1,
    lowest: 1,
};

pub(crate) const WHOLE: Form = Form {
    fields: Side {
        base: 6144,
        group: 5,
        count: 761,
    },
    bytes: Side {
        base: 256,
        group: 8,
        count: 1218,
    },
    bound: 4591,
    step: 1,
    lowest: 2295,
};

pub(crate) const ROUNDED: Form = Form {
    fields: Side {
        base: 1536,
        group: 3,
        count: 761,
    },
    bytes: Side {
        base: 256,
        group: 4,
        count: 1015,
    },
    bound: 1531,
    step: 3,
    lowest: 2295,
};
