use page_file::OpenFault;
use std::fmt::{Display, Formatter, Result, Write};

/// The text of why a page file was not opened: what is wrong, and where.
#[derive(Clone, Copy)]
pub(crate) struct OpenFaultText<'a>(pub(crate) &'a OpenFault);

impl Display for OpenFaultText<'_> {
    fn fmt<W: Write>(&self, f: &mut Formatter<W>) -> Result {
        match self.0 {
            OpenFault::Magic { .. } => f.write_str("magic"),
            OpenFault::Version { found } => write!(f, "version {found}"),
            OpenFault::Truncated { at } => write!(f, "truncated at {at}"),
            OpenFault::DirectoryDigest { .. } => f.write_str("directory digest"),
            OpenFault::DirectoryBad { rule, offset } => {
                write!(f, "directory rule {rule} broken at {offset}")
            }
            OpenFault::Rule { number, index } => write!(f, "rule {number} broken at {index}"),
            OpenFault::PageDigest { page, .. } => write!(f, "page {page} digest"),
            OpenFault::PageBad { page, rule, offset } => {
                write!(f, "page {page} rule {rule} broken at {offset}")
            }
            OpenFault::PageFault => f.write_str("could not be read"),
            OpenFault::Memory => f.write_str("out of memory"),
        }
    }
}
