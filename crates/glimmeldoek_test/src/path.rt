// The names of a case's two files, from its folder's name.
ghost use Rattle.std.specs.Prelude.{◌≤◌, length};

// The folder's bytes and then the file's, as many as there is room for; their count.
pub fn joined(folder: &[u8], file: &[u8], path: &mut [u8]) -> usize
    ensures { result ≤ length path.new }
{
    for (cell, byte) in path.iter_mut().zip(folder.iter().chain(file)) {
        *cell = *byte;
    }
    folder.len().saturating_add(file.len()).min(path.len())
}
