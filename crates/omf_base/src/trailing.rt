// Bytes without what pads them: the spaces after a name, the zeros after a segment's data.
ghost use Rattle.std.specs.Prelude.{◌≡◌, ◌≤◌, length};
ghost use Rattle.omf_format.specs.Name.{without_trailing};

/// The bytes up to the last one that differs from `byte`.
pub fn without_trailing(bytes: &[u8], byte: u8) -> &[u8]
    ensures value { result.now ≡ without_trailing byte bytes.now }
    ensures no_longer { length result.now ≤ length bytes.now }
{
    let mut end = bytes.len();
    'trim: while end > 0 && bytes[end - 1] == byte {
        end -= 1;
    }
    &bytes[..end]
}
