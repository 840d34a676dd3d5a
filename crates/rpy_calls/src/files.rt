// Words and files in memory.
use rpy_base::{MemFiles, NoMem, Text};
use std::alloc::Global;

/// The words of a line, between which spaces stand.
pub fn words_of(alloc: Global, line: &str) -> Result<Vec<Text>, NoMem> {
    let mut words = Vec::new(alloc);
    for word in line.split_whitespace() {
        words.push(Text::from_bytes(alloc, word.as_bytes())?)?;
    }
    Ok(words)
}

/// Files with this one file.
pub fn files_of(alloc: Global, name: &str, source: &[u8]) -> Result<MemFiles, NoMem> {
    let mut files = MemFiles::new(alloc);
    files.add(
        Text::from_bytes(alloc, name.as_bytes())?,
        Text::from_bytes(alloc, source)?,
    )?;
    Ok(files)
}
