ghost use Rattle.std.specs.Prelude.{◌≡◌};
ghost use Rattle.pool_tables.specs.Eviction.{is_in_snapshot};
ghost use Rattle.pool_tables.specs.PageRecords.{opening_record};

/// The number of a maker: 0 for the frames, 1 and so on for the loaders.
#[derive(Clone, Copy, Debug, PartialEq, Eq)]
pub struct MakerId(pub u32);

/// What is kept of one page. A count of entries includes the entry that it tells of.
#[derive(Clone, Copy, Debug)]
pub struct PageRecord {
    /// The count of entries at the page's last use; 0 if it was never used.
    pub last_used: u64,
    /// The count of entries at the page's last install; 0 if it was never installed.
    pub installed_at: u64,
    /// The count of entries at which the last load of the page ended; 0 if none did.
    pub load_ended_at: u64,
    /// How many live frames pin the page explicitly, and not by what was resident at their Pin.
    pub pins: u64,
    /// How many resident or loading pages that are no root pages depend on the page directly.
    pub dependents: u32,
    /// The maker that is loading the page, if one is.
    pub loader: Option<MakerId>,
    /// Whether the page is resident.
    pub resident: bool,
}

// A record and the page's two links in the order of use take at most 64 bytes together.
const _: () = prove!(size_of::<PageRecord>() + 2 * size_of::<u32>() <= 64);

/// The record of a page of which nothing happened.
pub const NO_RECORD: PageRecord = PageRecord {
    last_used: 0,
    installed_at: 0,
    load_ended_at: 0,
    pins: 0,
    dependents: 0,
    loader: None,
    resident: false,
};

/// Returns the record of a page after no entry, where the pages below `roots` are root pages.
pub fn opening_record(roots: u32, page: u32) -> PageRecord
    ensures { result ≡ opening_record roots page }
{
    let mut record = NO_RECORD;
    record.resident = page < roots;
    record
}

/// Whether a page that was installed at this count of entries was resident at the count of the snapshot.
pub fn is_in_snapshot(snapshot: Option<u64>, installed_at: u64) -> bool
    ensures { result ≡ is_in_snapshot snapshot installed_at }
{
    match snapshot {
        Some(snapshot) => installed_at <= snapshot,
        None => false,
    }
}

impl PageRecord {
    ghost use Rattle.pool_tables.specs.Eviction.{is_free};

    /// Whether no live frame pins the page, explicitly or by the last snapshot, and no page depends on it.
    pub fn is_free(&self, snapshot: Option<u64>) -> bool
        ensures { result ≡ is_free snapshot self.now }
    {
        self.pins == 0 && self.dependents == 0 && !is_in_snapshot(snapshot, self.installed_at)
    }
}
