//! The arguments, which are those of `link`, `rtl` and `linkrt` without an output.

ghost use Rattle.std.specs.Prelude.{◌≡◌, IfOk};
ghost use Rattle.omf_making.specs.Words.{words_of};
ghost use Rattle.omf_map.specs.Mapped.{with_output};

use std::alloc::{AllocError, Global};

/// The arguments as `omf` takes them: with an output after the command's name.
pub fn with_output(alloc: Global, words: &[String]) -> Result<Vec<String>, AllocError>
    ensures { IfOk result (λ all. words_of all.items ≡ with_output (words_of words.now)) }
{
    let mut all = Vec::new(alloc);
    match words.split_first() {
        None => {}
        Some((name, following)) => {
            all.push(String::from_str(alloc, name.as_str())?)?;
            all.push(String::from_str(alloc, "map")?)?;
            'following: for word in following {
                all.push(String::from_str(alloc, word.as_str())?)?;
            }
        }
    }
    Ok(all)
}
