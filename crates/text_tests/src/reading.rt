// What no clause says: that memory is enough, and what the definitions make of source written out. The spans and forms are
// those of an independent reader of the same source form, the values of formulas were worked out by hand.
use orca_text::{
    Form, Formula, FormulaTerm, Operand, Prefix, Span, TextCause, TextFault, read_lines,
    read_operand,
};
use std::alloc::{AllocError, Global};
use std::process::Abort;
use std::test::Fail;

fn fault(cause: TextCause, line: u32) -> TextFault {
    TextFault {
        cause,
        file: 7,
        line,
    }
}

/// The operand of the last line of a source.
fn last_operand(alloc: Global, source: &[u8]) -> Result<Option<Operand>, TextFault> {
    let lines = read_lines(alloc, 7, source)?;
    let count = lines.count();
    if count == 0 {
        return Ok(None);
    }
    match lines.get(count - 1) {
        Some(line) => Ok(Some(read_operand(alloc, line)?)),
        None => Ok(None),
    }
}

/// Bytes of one value.
fn bytes(alloc: Global, byte: u8, count: usize) -> Result<Vec<u8>, AllocError> {
    vec![in alloc; byte; count]
}

/// Where a field begins and ends.
type FieldPlaces = (u32, u32);

fn places(field: Span) -> FieldPlaces {
    (field.from, field.to)
}

/// The fields of the only line of file 7, which has these bytes.
fn fields_of(alloc: Global, text: &[u8]) -> Option<(FieldPlaces, FieldPlaces, FieldPlaces)> {
    let lines = read_lines(alloc, 7, text).ok()?;
    let line = lines.get(0)?;
    if (line.file, line.line) != (7, 1) || line.text.bytes() != text {
        return None;
    }
    Some((
        places(line.label),
        places(line.operation),
        places(line.operand),
    ))
}

/// Lines, and where their label, operation and operand begin and end.
static FIELDS: [(&str, FieldPlaces, FieldPlaces, FieldPlaces); 21] = [
    ("LAB LDA 5 comment", (0, 3), (4, 7), (8, 9)),
    ("LAB", (0, 3), (3, 3), (3, 3)),
    ("\tLDA\t5\tx", (0, 0), (1, 4), (5, 6)),
    (" NOP x", (0, 0), (1, 4), (5, 5)),
    (" INC ;x", (0, 0), (1, 4), (5, 5)),
    (" INC A", (0, 0), (1, 4), (5, 6)),
    (" BRK ; 5", (0, 0), (1, 4), (5, 5)),
    (" LDA ;x", (0, 0), (1, 4), (5, 7)),
    (" LDA", (0, 0), (1, 4), (4, 4)),
    ("* LDA 5", (0, 0), (0, 0), (0, 0)),
    ("; x", (0, 0), (0, 0), (0, 0)),
    ("!x", (0, 0), (0, 0), (0, 0)),
    ("  \t ", (0, 0), (0, 0), (0, 0)),
    ("  *", (0, 0), (2, 3), (3, 3)),
    (" DC C'a b' d", (0, 0), (1, 3), (4, 10)),
    (" DC C\"a 'b\" d", (0, 0), (1, 3), (4, 11)),
    (" lda 'a b", (0, 0), (1, 4), (5, 9)),
    ("L1 end 5", (0, 2), (3, 6), (7, 7)),
    ("A MexiT 5", (0, 1), (2, 7), (8, 8)),
    (" BLT 5 6", (0, 0), (1, 4), (5, 6)),
    (" LDX 'it''s' x", (0, 0), (1, 4), (5, 12)),
];

#[test]
fn lines_have_their_fields(rt: HostRuntime) {
    let alloc = rt.alloc();
    for (text, label, operation, operand) in &FIELDS {
        let want = Some((*label, *operation, *operand));
        assert_eq!(rt; fields_of(alloc, text.as_bytes()), want, "{text}");
    }
}

/// How many lines a source has, if there is none past them.
fn count_of(alloc: Global, source: &[u8]) -> Option<u32> {
    let lines = read_lines(alloc, 0, source).ok()?;
    let count = lines.count();
    match lines.get(count) {
        Some(_) => None,
        None => Some(count),
    }
}

/// Whether the second line of a source has the number 2 and these bytes.
fn is_second(alloc: Global, source: &[u8], want: &[u8]) -> bool {
    match read_lines(alloc, 0, source) {
        Ok(lines) => match lines.get(1) {
            Some(line) => line.line == 2 && line.text.bytes() == want,
            None => false,
        },
        Err(_) => false,
    }
}

/// Sources, and how many lines they have.
static ENDS: [(&str, u32); 8] = [
    ("", 0),
    ("\n", 1),
    ("\r", 1),
    ("\r\n", 1),
    ("\n\r", 2),
    ("A\r\nB\rC\nD", 4),
    ("A\n\nB\n", 3),
    ("A\r\r\nB", 3),
];

#[test]
fn lines_end_with_lf_cr_or_both(rt: HostRuntime) {
    let alloc = rt.alloc();
    for (source, count) in &ENDS {
        assert_eq!(rt;
            count_of(alloc, source.as_bytes()),
            Some(*count),
            "{source:?}"
        );
    }
    assert!(rt; is_second(alloc, b"A\r\nBC\rD", b"BC"));
}

/// File 7 with these bytes has this number of lines, or this fault.
fn has(rt: &impl Abort, alloc: Global, source: &[u8], want: Result<u32, TextFault>) {
    let lines = read_lines(alloc, 7, source);
    assert_eq!(rt; lines.map(|lines| lines.count()), want);
}

#[test]
fn sources_have_limits(rt: HostRuntime) -> Result<(), Fail> {
    let alloc = rt.alloc();
    let long = bytes(alloc, b'*', 256)?;
    has(
        &rt,
        alloc,
        long.as_slice(),
        Err(fault(TextCause::LineTooLong, 1)),
    );
    let longest = bytes(alloc, b'*', 255)?;
    has(&rt, alloc, longest.as_slice(), Ok(1));

    let mut source = bytes(alloc, b'\n', 65_536)?;
    has(&rt, alloc, source.as_slice(), Ok(65_536));
    source.push(b'*')?;
    has(
        &rt,
        alloc,
        source.as_slice(),
        Err(fault(TextCause::TooManyLines, 65_537)),
    );
    source.extend_from_slice(long.as_slice())?;
    has(
        &rt,
        alloc,
        source.as_slice(),
        Err(fault(TextCause::LineTooLong, 65_537)),
    );
    Ok(())
}

/// The form and prefix of the operand of the last line of a source; a pair alone has a second formula.
fn form_of(alloc: Global, source: &[u8]) -> Option<(Form, Prefix)> {
    let operand = last_operand(alloc, source).ok()??;
    if operand.second.is_some() != (operand.form == Form::Pair) {
        return None;
    }
    Some((operand.form, operand.prefix))
}

/// Lines, and the form and prefix of their operands.
static FORMS: [(&str, Form, Prefix); 27] = [
    (" LDA", Form::Nothing, Prefix::Bare),
    (" ASL a", Form::Accumulator, Prefix::Bare),
    (" LDA A", Form::Plain, Prefix::Bare),
    (" LDA #5", Form::Immediate, Prefix::Bare),
    (" LDA #<5", Form::Immediate, Prefix::Less),
    (" LDA #>5", Form::Immediate, Prefix::Greater),
    (" LDA #^5", Form::Immediate, Prefix::Caret),
    (" LDA 5", Form::Plain, Prefix::Bare),
    (" LDA 5,X", Form::IndexX, Prefix::Bare),
    (" LDA 5,y", Form::IndexY, Prefix::Bare),
    (" LDA <5,S", Form::IndexS, Prefix::Less),
    (" LDA (5)", Form::Paren, Prefix::Bare),
    (" LDA (<5),Y", Form::ParenY, Prefix::Less),
    (" LDA (!5,x)", Form::ParenX, Prefix::Bar),
    (" LDA (5,s),y", Form::ParenSY, Prefix::Bare),
    (" LDA [>5]", Form::Bracket, Prefix::Greater),
    (" LDA [5],Y", Form::BracketY, Prefix::Bare),
    (" MVN <1,2", Form::Pair, Prefix::Less),
    (" MVN 5,X+1", Form::Pair, Prefix::Bare),
    (" LDA (5),X", Form::Other, Prefix::Bare),
    (" LDA (5,Y)", Form::Other, Prefix::Bare),
    (" LDA [5,X]", Form::Other, Prefix::Bare),
    (" LDA |5", Form::Plain, Prefix::Bar),
    (" LDA <(5),Y", Form::IndexY, Prefix::Less),
    (" DS (5)", Form::Plain, Prefix::Bare),
    (" DS (5)*2,X", Form::IndexX, Prefix::Bare),
    ("* LDA 5", Form::Nothing, Prefix::Bare),
];

#[test]
fn operands_have_their_forms(rt: HostRuntime) {
    let alloc = rt.alloc();
    for (text, form, prefix) in &FORMS {
        assert_eq!(rt;
            form_of(alloc, text.as_bytes()),
            Some((*form, *prefix)),
            "{text}"
        );
    }
}

/// The value of a formula without names, of which `*` is 0, by a stack.
fn value(alloc: Global, formula: &Formula) -> Result<u32, AllocError> {
    let mut stack = Vec::new(alloc);
    for term in formula.terms() {
        let next = match term {
            FormulaTerm::Operator(0x06) => stack.pop().unwrap_or(0u32).wrapping_neg(),
            FormulaTerm::Operator(0x0B) => u32::from(stack.pop().unwrap_or(0) == 0),
            FormulaTerm::Operator(code) => {
                let right = stack.pop().unwrap_or(0);
                let left = stack.pop().unwrap_or(0);
                of_two(*code, left, right)
            }
            FormulaTerm::Constant(n) => *n,
            _ => 0,
        };
        stack.push(next)?;
    }
    Ok(stack.pop().unwrap_or(0))
}

/// An operator's number of two small ones.
fn of_two(code: u8, left: u32, right: u32) -> u32 {
    match code {
        0x01 => left.wrapping_add(right),
        0x02 => left.wrapping_sub(right),
        0x03 => left.wrapping_mul(right),
        0x04 => left.checked_div(right).unwrap_or(0),
        0x07 => left.checked_shl(right).unwrap_or(0),
        0x08 => u32::from(left != 0 && right != 0),
        0x09 => u32::from(left != 0 || right != 0),
        0x0A => u32::from((left != 0) != (right != 0)),
        0x0C => u32::from(left <= right),
        0x0D => u32::from(left >= right),
        0x0E => u32::from(left != right),
        0x0F => u32::from(left < right),
        0x10 => u32::from(left > right),
        0x11 => u32::from(left == right),
        _ => 0,
    }
}

/// The value of the first formula of the last line of a source.
fn first_value(alloc: Global, source: &[u8]) -> Option<u32> {
    let operand = last_operand(alloc, source).ok()??;
    value(alloc, &operand.first).ok()
}

/// Lines, and the values of their formulas.
static VALUES: [(&str, u32); 35] = [
    (" DS 1-2-3", 0xFFFF_FFFC),
    (" DS 2+3*4", 14),
    (" DS 2*3+4", 10),
    (" DS -2*3", 0xFFFF_FFFA),
    (" DS --5", 5),
    (" DS 5--3", 8),
    (" DS 16/4/2", 2),
    (" DS 16/4*2", 8),
    (" DS 1|2+3", 7),
    (" DS 1|1*3", 6),
    (" DS 3*1|2", 12),
    (" DS 1+2<4", 1),
    (" DS 3>2>1", 0),
    (" DS 1<2=1", 1),
    (" DS 1<>2", 1),
    (" DS 2<=2", 1),
    (" DS 2>=3", 0),
    (" DS 1=1.AND.0=1", 0),
    (" DS 1.OR.0.AND.0", 1),
    (" DS 1.EOR.1.and.0", 1),
    (" DS 1.OR.1.EOR.1", 0),
    (" DS .NOT.0=1", 1),
    (" DS .not..NOT.7", 1),
    (" DS (2+3)*4", 20),
    (" DS 2*(3-(4-5))", 8),
    (" DS $fF", 255),
    (" DS %101", 5),
    (" DS @17", 15),
    (" DS 'AB'", 0x4241),
    (" DS \"abcd\"", 0x6463_6261),
    (" DS 'a b'", 0x62_2061),
    (" DS 0004294967295", 0xFFFF_FFFF),
    (" LDA #2+3*4", 14),
    (" LDA (2+3)", 5),
    (" DS **2", 0),
];

#[test]
fn formulas_group_by_levels(rt: HostRuntime) {
    let alloc = rt.alloc();
    for (text, want) in &VALUES {
        assert_eq!(rt; first_value(alloc, text.as_bytes()), Some(*want), "{text}");
    }
}

/// Adds a name.
fn put_name(text: &mut String, name: &[u8]) -> Result<(), AllocError> {
    for byte in name {
        text.push(char::from(*byte))?;
    }
    Ok(())
}

/// Adds the code of an operator or of a name's term, and a blank.
fn put_code(alloc: Global, text: &mut String, code: u8) -> Result<(), AllocError> {
    text.push_str(format!(in alloc; "{code:x} ")?.as_str())
}

/// Adds a number, and a blank.
fn put_number(alloc: Global, text: &mut String, n: u32) -> Result<(), AllocError> {
    text.push_str(format!(in alloc; "#{n} ")?.as_str())
}

/// Adds a term, and a blank.
fn put_term(alloc: Global, text: &mut String, term: &FormulaTerm) -> Result<(), AllocError> {
    match term {
        FormulaTerm::Operator(code) => put_code(alloc, text, *code),
        FormulaTerm::Location => text.push_str("* "),
        FormulaTerm::Constant(n) => put_number(alloc, text, *n),
        FormulaTerm::Named(code, name) => {
            put_code(alloc, text, *code)?;
            put_name(text, name.bytes())?;
            text.push_str(" ")
        }
        FormulaTerm::Offset(_) => text.push_str("? "),
    }
}

/// The terms of the first formula of the last line of a source.
fn terms_of(alloc: Global, source: &[u8]) -> Result<String, AllocError> {
    let mut text = String::new(alloc);
    if let Ok(Some(operand)) = last_operand(alloc, source) {
        for term in operand.first.terms() {
            put_term(alloc, &mut text, term)?;
        }
    }
    Ok(text)
}

#[test]
fn terms_stand_in_postfix_order(rt: HostRuntime) -> Result<(), Fail> {
    let text = terms_of(rt.alloc(), b" LDA L:ab+c:~_9*e-*")?;
    assert_eq!(rt; text.as_str(), "84 AB 86 ~_9 83 E 3 1 * 2 ");
    Ok(())
}

/// The fault of a statement after other lines.
fn fault_after(alloc: Global, front: &str, text: &str) -> Result<Option<TextFault>, AllocError> {
    let source = format!(in alloc; "{front}{text}")?;
    Ok(last_operand(alloc, source.as_str().as_bytes()).err())
}

/// Statements whose operands are none.
static BAD_OPERANDS: [&str; 31] = [
    "LDA 1+",
    "LDA #",
    "LDA ''",
    "LDA 'abcde'",
    "LDA 'AB",
    "LDA (5),Q",
    "LDA #5,X",
    "LDA #|5",
    "LDA ^5",
    "MVN 1,<2",
    "LDA (5",
    "LDA 5)",
    "LDA 12AB",
    "LDA %102",
    "LDA @8",
    "LDA $",
    "LDA T:X",
    "LDA L:5",
    "LDA &X",
    "LDA L:&X",
    "LDA 1,2,3",
    "LDA (5)+1",
    "LDA -",
    "LDA 1.AND2",
    "LDA [5)",
    "LDA ()",
    "LDA <>5",
    "LDA 1=<2",
    "LDA .X",
    "LDA 4294967296+",
    "LDA 4294967296,1,2",
];

/// Statements with a number that has no 32 bits.
static BAD_NUMBERS: [&str; 5] = [
    "LDA 4294967296",
    "LDA $100000000",
    "MVN 1,4294967296",
    "LDA #-@40000000000",
    "LDA (%100000000000000000000000000000000),Y",
];

#[test]
fn bad_operands_have_their_line(rt: HostRuntime) -> Result<(), Fail> {
    let alloc = rt.alloc();
    for text in &BAD_OPERANDS {
        let want = Some(fault(TextCause::BadOperand, 2));
        assert_eq!(rt; fault_after(alloc, "*\n ", text)?, want, "{text}");
    }
    for text in &BAD_NUMBERS {
        let want = Some(fault(TextCause::BadNumber, 3));
        assert_eq!(rt; fault_after(alloc, "\n\n ", text)?, want, "{text}");
    }
    Ok(())
}

/// A line whose formula has 63 values that wait for the last part.
fn deep_line(alloc: Global, operation: &str, last: &str) -> Result<String, AllocError> {
    let mut line = String::new(alloc);
    line.push_str(operation)?;
    for _ in 0..21 {
        line.push_str("1=1+1*(")?;
    }
    line.push_str(last)?;
    for _ in 0..21 {
        line.push_str(")")?;
    }
    Ok(line)
}

/// The fault of a deep line.
fn fault_of_deep(
    alloc: Global,
    operation: &str,
    last: &str,
) -> Result<Option<TextFault>, AllocError> {
    let line = deep_line(alloc, operation, last)?;
    Ok(last_operand(alloc, line.as_str().as_bytes()).err())
}

/// Operations and last parts with which a deep line has 64 values at most.
static DEEP: [(&str, &str); 3] = [(" LDA ", "1"), (" DS ", "*"), (" LDA ", "-(2)")];

/// Those with which it has 65.
static TOO_DEEP: [(&str, &str); 5] = [
    (" DS ", "1*2"),
    (" LDA ", "1+1"),
    (" LDA ", "*"),
    (" DS ", "1+*"),
    (" MVN 1,", "*"),
];

#[test]
fn at_most_64_values_are_pending(rt: HostRuntime) -> Result<(), Fail> {
    let alloc = rt.alloc();
    for (operation, last) in &DEEP {
        assert_eq!(rt;
            fault_of_deep(alloc, operation, last)?,
            None,
            "{operation}{last}"
        );
    }
    for (operation, last) in &TOO_DEEP {
        let want = Some(fault(TextCause::BadOperand, 1));
        assert_eq!(rt;
            fault_of_deep(alloc, operation, last)?,
            want,
            "{operation}{last}"
        );
    }
    Ok(())
}
