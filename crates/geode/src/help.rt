use geode_tool::{Fault, ObjWhy};

const USAGE: &str = "\
usage: geode draw WIDTH HEIGHT CAMERA < model.obj > picture.txt
       geode audit < journal.txt
       geode make SIZE NUMBER > box.obj
       geode build < model.obj > model.geo
       geode verify model.geo
WIDTH and HEIGHT are 1 to 512. CAMERA is fifteen whole numbers between commas: focal length 1 to 4096,
near 16384 to 17179869184, tolerance 0 to 65535, then x,y,z of the eye, -16777216 to 16777216, and x,y,z of
right, down and forward, -16384 to 16384. tools/look_at.py prints the CAMERA that sees a model.
SIZE is 1 to 295, NUMBER 0 to 4294967295.
build reads the OBJ text that draw reads, with the same faults, and writes the page file of its levels of detail.";

const BAD_NUMBER: &str =
    "The last number is that of the word, the `v` being word 0: words 1 to 3 are numbers such as -1.5 or 2e-3.";

const OUT_OF_RANGE: &str =
    "The last number is that of the word, the `v` being word 0: coordinates lie within 1,024 units of 0.";

const BAD_CORNER: &str =
    "The last number is that of the word, the `f` being word 0: a corner begins with the number of a vertex.";

const NO_SUCH_VERTEX: &str = "\
The last number is that of the word, the `f` being word 0: the numbers of vertices run from 1 to the vertices
in the lines above, or from -1, the last of them, backwards.";

const SHORT_FACE: &str = "An `f` line has three corners or more.";

const EMPTY: &str = "The text has no `f` line with three different points.";

const TOO_LONG: &str = "An OBJ text has at most 268435456 bytes, a journal at most 67108864.";

const BAD_JOURNAL: &str =
    "A journal's lines end with LF alone, and single spaces separate their fields.";

const ILLEGAL: &str = "Entries are counted from 0: the lines after the layout that are no comment.";

const PAGES: &str = "The file is none that `geode build` wrote whole, or a byte of it was changed.";

const PAGE_FAULT: &str =
    "The file is not there, may not be read, is no plain file, or its disk fails.";

const UNSOUND: &str = "\
Rule 6 counts groups, rule 7 source triangles, rule 8 clusters, from 0. No such file can be drawn at every level of
detail without cracks and within its stated errors.";

/// Returns what people may want to know besides the line of a fault, or no text.
pub(crate) fn help_for(fault: &Fault) -> &'static str {
    match fault {
        Fault::Usage(_) => USAGE,
        Fault::TooLong => TOO_LONG,
        Fault::BadObj { why, .. } => help_for_line(why),
        Fault::Empty => EMPTY,
        Fault::BadJournal { .. } => BAD_JOURNAL,
        Fault::Illegal { .. } => ILLEGAL,
        Fault::Pages(_) => PAGES,
        Fault::PageFault => PAGE_FAULT,
        Fault::Unsound { .. } => UNSOUND,
        Fault::NoSource { .. }
        | Fault::ReadFault
        | Fault::TooMany
        | Fault::WriteFault
        | Fault::Memory => "",
    }
}

/// Returns which word of a faulty line is meant, and what the word may be.
fn help_for_line(why: &ObjWhy) -> &'static str {
    match why {
        ObjWhy::BadNumber(_) => BAD_NUMBER,
        ObjWhy::OutOfRange(_) => OUT_OF_RANGE,
        ObjWhy::BadCorner(_) => BAD_CORNER,
        ObjWhy::NoSuchVertex(_) => NO_SUCH_VERTEX,
        ObjWhy::ShortFace => SHORT_FACE,
    }
}
