// The program's buffers, and their sizes. The limits that they set stand in docs/FORMATS.md, "The image file".
ghost use Rattle.std.specs.Prelude.{◌≡◌, length};

// N of one number. A function of its own: a caller that writes so large an array itself takes the check minutes.
pub(crate) fn filled<T: Copy, const N: usize>(x: T) -> [T; N]
    ensures { N ≡ length result }
{
    [x; N]
}

// The words of 64 sections and 4,096 entries in each further table, of which there are 65,926.
pub(crate) const IMAGE: usize = 66000;

pub(crate) const STARTS: usize = 16384;

// The words of a map with a bit for each of 262,144 Code words.
pub(crate) const MAP: usize = 8192;

// The words of a stack of 512 waiting states, and of one of 4,096: two, and 331 for each state.
pub(crate) const SMALL_STACK: usize = 169474;

pub(crate) const STACK: usize = 1355778;

// The bytes of a report: at most one for each Code word, eight for each section, and ten.
pub(crate) const REPORT: usize = 262666;

// The bytes of the name of the report's file.
pub(crate) const PATH: usize = 4096;
