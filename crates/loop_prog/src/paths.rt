use krn_base::Seq;

/// What is assigned on every path to a place: a test for each register, those of scalar registers at the even places
/// and those of view registers at the odd ones. A place that isn't reached has no path to it.
#[derive(Drop)]
pub struct Paths {
    pub reached: bool,
    pub slots: Seq<bool>,
}
