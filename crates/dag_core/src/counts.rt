/// The counts of a DAG, as a page file states them.
#[derive(Clone, Copy, Debug, PartialEq, Eq)]
pub struct Counts {
    /// The number of groups: 1 to `MAX_GROUPS`.
    pub groups: u32,
    /// The number of clusters: 1 to `MAX_CLUSTERS`.
    pub clusters: u32,
    /// The number of pages: 1 to `MAX_PAGES`.
    pub pages: u32,
    /// The number of root pages, 1 to `pages`. The pages below this number are the root pages.
    pub roots: u32,
    /// The number of source triangles: 1 to `MAX_TRIANGLES`.
    pub sources: u32,
}
