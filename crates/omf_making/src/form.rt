//! Forms of arguments.

ghost use Rattle.std.specs.Prelude.{◌≡◌, ◌<◌, ◌^◌, None, if◌then◌else◌, length, nat_le, Some};
ghost use Rattle.std.specs.Option.{option_map};
ghost use Rattle.omf_making.specs.Words.{is_path, are_paths, words_of, number_between};
ghost use Rattle.omf_making.specs.Steps.{are_printing, number_in, later_form, last_inputs};
ghost use Rattle.omf_making.specs.Form.{with_output, source_and_output, input_and_output, count_and_seed, output_and_runtimes, form_of, form_of_words};
ghost use Rattle.load_meaning.specs.Pathnames.{is_path_byte};
ghost use Rattle.std.specs.List.{list_all};

/// A command with its paths.
pub enum CommandForm<'a> {
    Asm {
        source: &'a str,
        output: &'a str,
        macros: &'a [String],
    },
    Link {
        output: &'a str,
        inputs: &'a [String],
    },
    Dump {
        inputs: &'a [String],
    },
    Run {
        inputs: &'a [String],
    },
    Lib {
        output: &'a str,
        inputs: &'a [String],
    },
    Stress {
        count: u32,
        seed: u32,
    },
    Rtl {
        output: &'a str,
        inputs: &'a [String],
    },
    LinkRt {
        output: &'a str,
        /// All inputs, the run-time library files after the others.
        inputs: &'a [String],
        /// The last of them.
        runtimes: &'a [String],
    },
    Listing {
        output: &'a str,
        inputs: &'a [String],
    },
    Compact {
        output: &'a str,
        inputs: &'a [String],
    },
}

/// A path is a word of 1 to 255 bytes.
fn is_path(word: &str) -> bool
    ensures { result ≡ is_path word.now }
{
    !word.is_empty() && word.len() <= 255
}

/// Whether all arguments are paths, and there are `least` to `most` of them.
pub fn are_paths(least: usize, most: usize, words: &[String]) -> bool
    ensures { result ≡ are_paths least most (words_of words.now) }
{
    least <= words.len() && words.len() <= most && words.iter().all(|word| is_path(word.as_str()))
}

/// An output, and after it `least` to `most` inputs.
fn with_output(least: usize, most: usize, words: &[String]) -> Option<(&str, &[String])>
    ensures { option_map (λ w. (w.0.now, words_of w.1.now)) result ≡ with_output least most (words_of words.now) }
{
    let (output, inputs) = words.split_first()?;
    let output = output.as_str();
    if is_path(output) && are_paths(least, most, inputs) {
        Some((output, inputs))
    } else {
        None
    }
}

/// A source, an output, and macro files after them.
fn source_and_output(words: &[String]) -> Option<(&str, &str, &[String])>
    ensures { option_map (λ w. (w.0.now, w.1.now, words_of w.2.now)) result ≡ source_and_output (words_of words.now) }
{
    let (source, words) = words.split_first()?;
    let source = source.as_str();
    if !is_path(source) {
        return None;
    }
    let (output, macros) = with_output(0, 254, words)?;
    Some((source, output, macros))
}

/// `least` to `most` inputs.
fn inputs_only(least: usize, most: usize, words: &[String]) -> Option<&[String]>
    ensures { option_map (λ w. words_of w.now) result ≡ (if are_paths least most (words_of words.now) then Some (words_of words.now) else None) }
{
    if are_paths(least, most, words) {
        Some(words)
    } else {
        None
    }
}

/// The number that a word writes: decimal digits alone, 1 to 10 of them.
#[tactic(auto, using(std::proofs::lemmas::List::drop_more, crate::proofs::Numbers::read_start, crate::proofs::Numbers::read_step, crate::proofs::Numbers::read_small, crate::proofs::Numbers::read_end, crate::proofs::Numbers::read_low, crate::proofs::Numbers::read_high, crate::proofs::Numbers::read_none, crate::proofs::Numbers::read_long))]
fn number_in(word: &str) -> Option<u64>
    ensures { result ≡ number_in word.now }
{
    let digits = word.as_bytes();
    if digits.is_empty() || digits.len() > 10 {
        return None;
    }
    let mut number: u64 = 0;
    'digits: for digit in digits {
        if *digit < b'0' || *digit > b'9' {
            return None;
        }
        number = 10 * number + u64::from(*digit - b'0');
    }
    Some(number)
}

/// The number of a word, where it lies between these.
fn number_between(least: u64, most: u64, word: &str) -> Option<u32>
    requires { most < 2 ^ 32 }
    ensures { result ≡ number_between least most word.now }
{
    let number = number_in(word)?;
    if least <= number && number <= most {
        Some(number as u32)
    } else {
        None
    }
}

/// How many dynamic segments, and a seed.
fn count_and_seed(words: &[String]) -> Option<(u32, u32)>
    ensures { result ≡ count_and_seed (words_of words.now) }
{
    let (count, words) = words.split_first()?;
    let (seed, words) = words.split_first()?;
    if !words.is_empty() {
        return None;
    }
    let count = number_between(1, 64, count.as_str())?;
    let seed = number_between(0, 4_294_967_295, seed.as_str())?;
    Some((count, seed))
}

/// The same for a word of no more than two digits.
fn short_number_between(least: u64, most: u64, word: &str) -> Option<u32>
    requires { most < 2 ^ 32 }
    ensures { result ≡ (if nat_le (length word.now) 2 then number_between least most word.now else None) }
{
    if word.len() <= 2 {
        number_between(least, most, word)
    } else {
        None
    }
}

/// A path that a pathname segment can hold: printing characters other than a space.
fn is_printing(word: &str) -> bool
    ensures { result ≡ (list_all is_path_byte word.now) }
{
    word.as_bytes()
        .iter()
        .all(|byte| b'!' <= *byte && *byte <= b'~')
}

/// Whether a pathname segment can hold all paths.
fn are_printing(words: &[String]) -> bool
    ensures { result ≡ are_printing (words_of words.now) }
{
    words.iter().all(|word| is_printing(word.as_str()))
}

/// The last `count` inputs, where there are more, and these have printing paths.
fn last_inputs(count: usize, inputs: &[String]) -> Option<&[String]>
    ensures { option_map (λ last. words_of last.now) result ≡ last_inputs count (words_of inputs.now) }
{
    if count >= inputs.len() {
        return None;
    }
    let (_, last) = inputs.split_at(inputs.len() - count);
    if are_printing(last) { Some(last) } else { None }
}

/// An output, how many of the inputs are run-time library files, and the inputs: all of them, and the last ones.
fn output_and_runtimes(words: &[String]) -> Option<(&str, &[String], &[String])>
    ensures { option_map (λ w. (w.0.now, words_of w.1.now, words_of w.2.now)) result ≡ output_and_runtimes (words_of words.now) }
{
    let (output, words) = words.split_first()?;
    let (count, inputs) = words.split_first()?;
    let count = short_number_between(1, 16, count.as_str())?;
    let output = output.as_str();
    if !is_path(output) || !are_paths(2, 255, inputs) {
        return None;
    }
    let runtimes = last_inputs(count as usize, inputs)?;
    Some((output, inputs, runtimes))
}

/// An input, and an output after it.
fn input_and_output(words: &[String]) -> Option<(&str, &[String])>
    ensures { option_map (λ w. (w.0.now, words_of w.1.now)) result ≡ input_and_output (words_of words.now) }
{
    let (input, following) = words.split_first()?;
    let (output, following) = following.split_first()?;
    let output = output.as_str();
    if following.is_empty() && is_path(input.as_str()) && is_path(output) {
        Some((output, &words[..1]))
    } else {
        None
    }
}

/// The form after a name that was added later: run-time library files, the lister, and canonical load files.
fn later_form<'a>(name: &str, words: &'a [String]) -> Option<CommandForm<'a>>
    ensures { option_map form_of_words result ≡ later_form name.now (words_of words.now) }
{
    match name {
        "rtl" => {
            let (output, inputs) = with_output(1, 255, words)?;
            Some(CommandForm::Rtl { output, inputs })
        }
        "linkrt" => {
            let (output, inputs, runtimes) = output_and_runtimes(words)?;
            Some(CommandForm::LinkRt {
                output,
                inputs,
                runtimes,
            })
        }
        "list" => {
            let (output, inputs) = input_and_output(words)?;
            Some(CommandForm::Listing { output, inputs })
        }
        "compact" => {
            let (output, inputs) = input_and_output(words)?;
            Some(CommandForm::Compact { output, inputs })
        }
        _ => None,
    }
}

/// The form of the arguments, or None where they have none.
pub fn read_form(words: &[String]) -> Option<CommandForm<'_>>
    ensures { option_map form_of_words result ≡ form_of (words_of words.now) }
{
    let (name, words) = words.split_first()?;
    let name = name.as_str();
    match name {
        "asm" => {
            let (source, output, macros) = source_and_output(words)?;
            Some(CommandForm::Asm {
                source,
                output,
                macros,
            })
        }
        "link" => {
            let (output, inputs) = with_output(1, 255, words)?;
            Some(CommandForm::Link { output, inputs })
        }
        "dump" => {
            let inputs = inputs_only(1, 1, words)?;
            Some(CommandForm::Dump { inputs })
        }
        "run" => {
            let inputs = inputs_only(1, 1, words)?;
            Some(CommandForm::Run { inputs })
        }
        "lib" => {
            let (output, inputs) = with_output(1, 255, words)?;
            Some(CommandForm::Lib { output, inputs })
        }
        "stress" => {
            let (count, seed) = count_and_seed(words)?;
            Some(CommandForm::Stress { count, seed })
        }
        _ => later_form(name, words),
    }
}
