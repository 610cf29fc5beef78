use ssh_fields::Text;

/// A line of a file with content.
#[derive(Drop)]
pub struct ConfLine {
    /// The file's path.
    pub file: Text,
    /// The line's number, counted from 1.
    pub number: u64,
    /// How many files include its own.
    pub depth: u32,
    /// Whether it is the first line given of this reading of its file.
    pub opens: bool,
    pub keyword: Text,
    /// What follows the keyword, which isn't empty.
    pub rest: Text,
}
