/// A frame's pending request to load a page.
#[derive(Clone, Copy, Debug, PartialEq, Eq)]
pub struct Want {
    /// The frame that wants it.
    pub frame: u32,
    /// The page that it wants.
    pub page: u32,
    /// Whether a Settle made the request; the frame then pins the page when it is installed. An Ask does not.
    pub settled: bool,
}
