//! Five nodes whose clocks stand still, and a sum by which texts of them are told.

/// Five nodes, of which node 0 starts in slot 10.
pub(crate) const FIVE: &str =
    "version = 1\nrounds = 1\nschedule = 0\nbuffers = 2\ndrift = 0\nerror = 0\nwindow = 1\n
[[slot]]\nkinds = \"I\"\ndata = 0\nsync = true\nstart = true\n
[[slot]]\nkinds = \"I\"\ndata = 0\nsync = true\nstart = false\n
[[slot]]\nkinds = \"I\"\ndata = 0\nsync = true\nstart = false\n
[[slot]]\nkinds = \"I\"\ndata = 0\nsync = true\nstart = false\n
[[slot]]\nkinds = \"I\"\ndata = 0\nsync = true\nstart = false\n";

/// A script in which all are on and nothing happens.
pub(crate) const QUIET: &[u8] = b"slots 45\non 0 0\non 1 0\non 2 0\non 3 0\non 4 0\n";

/// A sum of bytes that tells their order: each counts 31 times what the next one does, modulo 2^64.
pub(crate) fn sum_of(text: &[u8]) -> u64 {
    let mut sum: u64 = 0;
    for byte in text {
        sum = sum.wrapping_mul(31).wrapping_add(u64::from(*byte));
    }
    sum
}
