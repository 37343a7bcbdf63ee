// What is the same for all parties, in ticks.
#[derive(Clone, Copy)]
pub struct Settings {
    // the maximum merge delay
    pub mmd: u32,
    // for how long a revocation list is good
    pub freshness: u32,
    // for how long a certificate is good
    pub lifetime: u32,
}
