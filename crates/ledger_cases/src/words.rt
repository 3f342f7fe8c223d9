// A call or a question of the table, cut into words.
use percent_encoding::percent_decode;
use std::alloc::Global;

// How the name without any byte is written.
const EMPTY_NAME: &str = "\"\"";

// A word, and the bytes that it stands for where it is a name: %HH is the byte HH.
#[derive(Drop)]
pub struct Word<'a> {
    pub text: &'a str,
    pub name: Vec<u8>,
}

impl<'a> Word<'a> {
    fn new(heap: Global, text: &'a str) -> anyhow::Result<Word<'a>> {
        let mut name = Vec::new(heap);
        if text != EMPTY_NAME {
            percent_decode(text.as_bytes()).append_to(&mut name)?;
        }
        Ok(Word { text, name })
    }
}

fn words_of<'a>(heap: Global, text: &'a str) -> anyhow::Result<Vec<Word<'a>>> {
    let mut words = Vec::new(heap);
    for word in text.split_whitespace() {
        words.push(Word::new(heap, word)?)?;
    }
    Ok(words)
}

// The verb stands first; braces stand last, if there are any.
#[derive(Drop)]
pub struct Request<'a> {
    pub verb: &'a str,
    pub words: Vec<Word<'a>>,
    pub braces: Option<Vec<Word<'a>>>,
}

// What stands before the braces, and what stands in them; none where the braces are not closed at the end.
fn split_braces(text: &str) -> Option<(&str, Option<&str>)> {
    let Some((front, rest)) = text.split_once('{') else {
        return Some((text, None));
    };
    let inner = rest.strip_suffix('}')?;
    Some((front, Some(inner)))
}

impl<'a> Request<'a> {
    pub(crate) fn read(heap: Global, text: &'a str) -> anyhow::Result<Option<Request<'a>>> {
        let Some((front, inner)) = split_braces(text) else {
            return Ok(None);
        };
        let (verb, rest) = front.split_once(' ').unwrap_or((front, ""));
        let braces = match inner {
            None => None,
            Some(inner) => Some(words_of(heap, inner)?),
        };
        let words = words_of(heap, rest)?;
        Ok(Some(Request {
            verb,
            words,
            braces,
        }))
    }

    // The words in the braces.
    pub(crate) fn inner(&self) -> Option<&[Word<'a>]> {
        match &self.braces {
            Some(words) => Some(words.as_slice()),
            None => None,
        }
    }
}
