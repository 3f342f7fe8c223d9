// The call that a row asks for.
use crate::words::{Request, Word};
use books::call::{Call, GivenAmount, GivenBraces, GivenCost};
use values::flag::Flag;

fn unsigned(word: &Word<'_>) -> Option<u32> {
    word.text.parse::<u32>().ok()
}

fn signed(word: &Word<'_>) -> Option<i32> {
    word.text.parse::<i32>().ok()
}

fn length(word: &Word<'_>) -> Option<usize> {
    word.text.parse::<usize>().ok()
}

fn flag(word: &Word<'_>) -> Option<Flag> {
    match word.text {
        "*" => Some(Flag::Complete),
        "!" => Some(Flag::Incomplete),
        _ => None,
    }
}

fn declaring<'a>(words: &'a [Word<'_>]) -> Option<Call<'a>> {
    let [source, date, name] = words else {
        return None;
    };
    Some(Call::Declare {
        source: unsigned(source)?,
        date: unsigned(date)?,
        name: name.name.as_slice(),
    })
}

fn opening<'a>(words: &'a [Word<'_>]) -> Option<Call<'a>> {
    let (source, date, name, own) = match words {
        [source, date, name] => (source, date, name, None),
        [source, date, name, own] => (source, date, name, Some(own.name.as_slice())),
        _ => return None,
    };
    Some(Call::Open {
        source: unsigned(source)?,
        date: unsigned(date)?,
        name: name.name.as_slice(),
        own,
    })
}

fn asserting<'a>(words: &'a [Word<'_>]) -> Option<Call<'a>> {
    let [source, date, account, amount, commodity] = words else {
        return None;
    };
    Some(Call::Assert {
        source: unsigned(source)?,
        date: unsigned(date)?,
        account: account.name.as_slice(),
        amount: signed(amount)?,
        commodity: commodity.name.as_slice(),
    })
}

fn closing<'a>(words: &'a [Word<'_>]) -> Option<Call<'a>> {
    let [source, date, account] = words else {
        return None;
    };
    Some(Call::Close {
        source: unsigned(source)?,
        date: unsigned(date)?,
        account: account.name.as_slice(),
    })
}

fn beginning<'a>(words: &'a [Word<'_>]) -> Option<Call<'a>> {
    let [source, date, mark] = words else {
        return None;
    };
    Some(Call::Begin {
        source: unsigned(source)?,
        date: unsigned(date)?,
        flag: flag(mark)?,
    })
}

fn cost<'a>(number: &Word<'_>, commodity: &'a Word<'_>) -> Option<GivenCost<'a>> {
    Some(GivenCost {
        number: signed(number)?,
        commodity: commodity.name.as_slice(),
    })
}

fn braces<'a>(words: &'a [Word<'_>]) -> Option<GivenBraces<'a>> {
    let (cost, date) = match words {
        [] => (None, None),
        [date] => (None, Some(unsigned(date)?)),
        [number, commodity] => (Some(cost(number, commodity)?), None),
        [number, commodity, date] => (Some(cost(number, commodity)?), Some(unsigned(date)?)),
        _ => return None,
    };
    Some(GivenBraces { cost, date })
}

// Nothing where there are no braces; braces that cannot be read make the row unreadable.
fn braces_if_any<'a>(inner: Option<&'a [Word<'_>]>) -> Option<Option<GivenBraces<'a>>> {
    match inner {
        None => Some(None),
        Some(words) => Some(Some(braces(words)?)),
    }
}

fn posting<'a>(words: &'a [Word<'_>], inner: Option<&'a [Word<'_>]>) -> Option<Call<'a>> {
    let (slip, source, account, amount) = match words {
        [slip, source, account] if inner.is_none() => (slip, source, account, None),
        [slip, source, account, number, commodity] => {
            let amount = GivenAmount {
                number: signed(number)?,
                commodity: commodity.name.as_slice(),
                braces: braces_if_any(inner)?,
            };
            (slip, source, account, Some(amount))
        }
        _ => return None,
    };
    Some(Call::Post {
        slip: unsigned(slip)?,
        source: unsigned(source)?,
        account: account.name.as_slice(),
        amount,
    })
}

fn settling<'a>(words: &'a [Word<'_>]) -> Option<Call<'a>> {
    let [slip, lent] = words else {
        return None;
    };
    Some(Call::Settle {
        slip: unsigned(slip)?,
        lent: length(lent)?,
    })
}

fn tearing<'a>(words: &'a [Word<'_>]) -> Option<Call<'a>> {
    let [slip] = words else {
        return None;
    };
    Some(Call::Tear {
        slip: unsigned(slip)?,
    })
}

fn writing_header<'a>(words: &'a [Word<'_>]) -> Option<Call<'a>> {
    let [lent] = words else {
        return None;
    };
    Some(Call::WriteHeader {
        lent: length(lent)?,
    })
}

// None where the row asks for no call, or its call cannot be read.
pub(crate) fn call_of<'a>(request: &'a Request<'_>) -> Option<Call<'a>> {
    let words = request.words.as_slice();
    let inner = request.inner();
    match request.verb {
        "post" => posting(words, inner),
        _ if inner.is_some() => None,
        "declare" => declaring(words),
        "open" => opening(words),
        "assert" => asserting(words),
        "close" => closing(words),
        "begin" => beginning(words),
        "settle" => settling(words),
        "tear" => tearing(words),
        "header" => writing_header(words),
        _ => None,
    }
}
