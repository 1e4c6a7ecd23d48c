//! The workers of a set.

ghost use Rattle.std.specs.Prelude.{◌<◌};

/// The workers that run the clusters of a set: the runtime that starts their threads, how many they are, the gate that a
/// worker enters before each cluster, and whether they keep a change log.
#[derive(Drop)]
pub struct Workers<'a, R, T> {
    pub rt: &'a R,
    pub count: usize,
    pub gate: &'a T,
    pub logs: bool,
    pub ghost some: { 0 < count },
}
