// How the samples of sections 6, 7 and 8 are counted.
use format::{FAR, MIDDLE, NEAR};

// How section 6, 7 or 8 counts: trits from sample to sample, steps until counting begins anew, and bytes a number.
#[derive(Clone, Copy)]
pub struct Plan {
    pub step: usize,
    pub fan: usize,
    pub width: usize,
}

impl Plan {
    // Section 6; two steps pass the end of any image.
    pub const FAR: Plan = Plan {
        step: FAR,
        fan: 2,
        width: 4,
    };
    // Section 7.
    pub const MIDDLE: Plan = Plan {
        step: MIDDLE,
        fan: FAR / MIDDLE,
        width: 2,
    };
    // Section 8.
    pub const NEAR: Plan = Plan {
        step: NEAR,
        fan: MIDDLE / NEAR,
        width: 1,
    };
}
