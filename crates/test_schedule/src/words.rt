//! What words ask for.

use crate::wrong::has_none;
use cli_mistakes::words_mistake;
use drm_bits::Octets;
use drm_links::Address;
use drm_schedule::{Carry, Live};
use drm_words::{Addresses, Request, read_words};
use std::alloc::Global;

// Lines of words, each word behind a `|`, and behind ` > ` what they ask for: the command, then the plain words and the
// options in the order of the command's row, `-` where one isn't told. By hand from the rules of the command line; a reader
// of the same rules in Python gives the same. They are one text, since a table of so many texts takes long to check.
const ASKED: &str = "|fac > fac
|fac|-- > fac
|show > show
|check|a > check a
|check|- > check -
|check|a=b > check a=b
|check|a|-- > check a
|check|--|a > check a
|check|--|-a > check -a
|check|--|-- > check --
|check|--|--window=4 > check --window=4
|check|Ås -x > check Ås -x
|capacity|a > capacity a
|capacity|--|--from=4 > capacity --from=4
|agree|a|b > agree a b
|agree|a|a|-- > agree a a
|agree|--|a|--until=4 > agree a --until=4
|serve|a > serve a - 0 0
|serve|a|--pace|0 > serve a - 0 0
|serve|--pace|10000|a > serve a - 10000 0
|serve|a|--to|127.0.0.1:5000 > serve a 127.0.0.1:5000 0 0
|serve|a|--to|127.0.0.1:5001,127.0.0.1:5000 > serve a 127.0.0.1:5001,127.0.0.1:5000 0 0
|serve|--to=0.0.0.0:1|a|--pace=25|--from=7 > serve a 0.0.0.0:1 25 7
|serve|--pace=25|--to|255.255.255.255:65535|--|- > serve - 255.255.255.255:65535 25 0
|serve|a|--from|1000000 > serve a - 0 1000000
|serve|a|--until|0 > serve a - 0 0 until 0
|serve|--until=1000000|a|--from|2 > serve a - 0 2 until 1000000
|serve|a|--live|0 > serve a - 0 0 live 0
|serve|--live=0,1,2,3|a > serve a - 0 0 live 0 1 2 3
|serve|a|--live|1,3|--to|127.0.0.1:5000|--pace|400|--from|2 > serve a 127.0.0.1:5000 400 2 live 1 3
|serve|a|--live|1,3|--until|5|--to|127.0.0.1:5000|--pace|400|--from|2 > serve a 127.0.0.1:5000 400 2 until 5 live 1 3
|receive > receive - 8 - - 50 4294967295
|receive|-- > receive - 8 - - 50 4294967295
|receive|127.0.0.1:5000 > receive 127.0.0.1:5000 8 - - 50 4294967295
|receive|1.2.3.4:5,1.2.3.4:6 > receive 1.2.3.4:5,1.2.3.4:6 8 - - 50 4294967295
|receive|--|1.2.3.4:5,5.4.3.2:5 > receive 1.2.3.4:5,5.4.3.2:5 8 - - 50 4294967295
|receive|1.0.0.0:1,1.0.0.0:2,1.0.0.0:3,1.0.0.0:4,1.0.0.0:5,1.0.0.0:6,1.0.0.0:7,1.0.0.0:8,1.0.0.0:9,1.0.0.1:1,1.0.0.1:2,1.0.0.1:3,1.0.0.1:4,1.0.0.1:5,1.0.0.1:6,1.0.0.1:7 > receive 1.0.0.0:1,1.0.0.0:2,1.0.0.0:3,1.0.0.0:4,1.0.0.0:5,1.0.0.0:6,1.0.0.0:7,1.0.0.0:8,1.0.0.0:9,1.0.0.1:1,1.0.0.1:2,1.0.0.1:3,1.0.0.1:4,1.0.0.1:5,1.0.0.1:6,1.0.0.1:7 8 - - 50 4294967295
|receive|--window|1 > receive - 1 - - 50 4294967295
|receive|--window|64 > receive - 64 - - 50 4294967295
|receive|--reach|1 > receive - 8 - - reach 1 50 4294967295
|receive|--reach=32767 > receive - 8 - - 50 4294967295
|receive|--first|0 > receive - 8 0 - 50 4294967295
|receive|--first|65535 > receive - 8 65535 - 50 4294967295
|receive|--frames|1 > receive - 8 - 1 50 4294967295
|receive|--frames|3000000 > receive - 8 - 3000000 50 4294967295
|receive|--idle|1 > receive - 8 - - 1 4294967295
|receive|--idle|1000000 > receive - 8 - - 1000000 4294967295
|receive|--limit|1 > receive - 8 - - 50 1
|receive|--limit|4294967295 > receive - 8 - - 50 4294967295
|receive|--window=4|--first=5|--frames=6|--idle=7|--limit=8 > receive - 4 5 6 7 8
|receive|--limit|8|--idle|7|--frames|6|9.9.9.9:9|--first|5|--window|4 > receive 9.9.9.9:9 4 5 6 7 8
|count > count - 8 - - 50 4294967295
|count|1.2.3.4:5|-- > count 1.2.3.4:5 8 - - 50 4294967295
|count|--window=4|--first=5|9.9.9.9:9|--frames=6|--idle=7|--limit=8 > count 9.9.9.9:9 4 5 6 7 8
|air|a|b > air a b 8
|air|a|--window|4|b > air a b 4
|air|--window=64|--|a|--window > air a --window 64
|air|-|- > air - - 8
|convert|plain > convert plain 8 - -
|convert|pft:0:128 > convert pft:0:128 8 - -
|convert|pft:5:1500 > convert pft:5:1500 8 - -
|convert|pft:2:1400|--frames|10|--first|9|--window|3 > convert pft:2:1400 3 9 10
|convert|--window=3|plain > convert plain 3 - -
|exercise|1 > exercise 1
|exercise|1000 > exercise 1000
|exercise|--|7 > exercise 7
|exercise|10|-- > exercise 10
|check|-|-- > check -
|gate|1.2.3.4:5|5.4.3.2:1|plain > gate 1.2.3.4:5 5.4.3.2:1 plain 8 - - 50 4294967295
|gate|1.2.3.4:5|1.2.3.4:5|pft:2:1400 > gate 1.2.3.4:5 1.2.3.4:5 pft:2:1400 8 - - 50 4294967295
|gate|1.2.3.4:5|5.4.3.2:1,5.4.3.2:2|plain > gate 1.2.3.4:5 5.4.3.2:1,5.4.3.2:2 plain 8 - - 50 4294967295
|gate|--limit=8|1.2.3.4:5|--idle|7|5.4.3.2:1|--frames=6|--first=5|--|plain > gate 1.2.3.4:5 5.4.3.2:1 plain 8 5 6 7 8
|pack|0|1 > pack 0 1
|pack|3|255 > pack 3 255
|pack|--|2|4 > pack 2 4
|unpack|0|0|1 > unpack 0 0 1 8 - -
|unpack|3|2|255 > unpack 3 2 255 8 - -
|unpack|--window=64|3|--first=0|2|4|--frames|10 > unpack 3 2 4 64 0 10
|texts|0 > texts 0 8 - -
|texts|3|--window|1 > texts 3 1 - -
|texts|--frames=6|--first=5|--|1 > texts 1 8 5 6
";

// Puts the words of a line into the list.
fn put_words(alloc: Global, line: &str, words: &mut Vec<String>) -> bool {
    for word in line.split('|').skip(1) {
        if !put_word(alloc, word, words) {
            return false;
        }
    }
    true
}

fn put_word(alloc: Global, word: &str, words: &mut Vec<String>) -> bool {
    match String::from_str(alloc, word) {
        Ok(word) => words.push(word).is_ok(),
        Err(_) => false,
    }
}

// What is shown stands behind a space. Want of memory is a wrong answer too.
fn word(shown: &mut String, word: &str) -> bool {
    shown.push(' ').is_ok() && shown.push_str(word).is_ok()
}

fn text(shown: &mut String, octets: &Octets) -> bool {
    word(shown, octets.as_text().unwrap_or("no text"))
}

fn number(shown: &mut String, number: u64) -> bool {
    write!(shown, " {number}").is_ok()
}

fn number_if(shown: &mut String, told: Option<u64>) -> bool {
    match told {
        Some(told) => number(shown, told),
        None => word(shown, "-"),
    }
}

fn address(shown: &mut String, mark: char, address: &Address) -> bool {
    let [a, b, c, d] = address.ip;
    let port = address.port;
    write!(shown, "{mark}{a}.{b}.{c}.{d}:{port}").is_ok()
}

fn addresses(shown: &mut String, list: &Addresses) -> bool {
    for k in 0..list.len() {
        if !address(shown, if k > 0 { ',' } else { ' ' }, list.get(k)) {
            return false;
        }
    }
    true
}

fn carry_shown(shown: &mut String, carry: Carry) -> bool {
    match carry {
        Carry::Plain => word(shown, "plain"),
        Carry::Pft { m, mtu } => write!(shown, " pft:{m}:{mtu}").is_ok(),
    }
}

fn live_shown(shown: &mut String, live: &Live) -> bool {
    if live.any() && !word(shown, "live") {
        return false;
    }
    for k in 0..4usize {
        if live.has(k) && !number(shown, k as u64) {
            return false;
        }
    }
    true
}

fn until_shown(shown: &mut String, until: Option<u32>) -> bool {
    match until {
        Some(until) => word(shown, "until") && number(shown, u64::from(until)),
        None => true,
    }
}

// The window, the first number, how many frames, and how far one may be ahead: nothing of the greatest reach.
fn rules(
    shown: &mut String,
    window: u8,
    reach: u16,
    first: Option<u16>,
    frames: Option<u64>,
) -> bool {
    number(shown, u64::from(window))
        && number_if(shown, first.map(u64::from))
        && number_if(shown, frames)
        && (reach == 32_767 || word(shown, "reach") && number(shown, u64::from(reach)))
}

fn show(shown: &mut String, request: &Request) -> bool {
    match request {
        Request::Fac => word(shown, "fac"),
        Request::Check { name } => word(shown, "check") && text(shown, name),
        Request::Capacity { name } => word(shown, "capacity") && text(shown, name),
        Request::Agree { name, other } => {
            word(shown, "agree") && text(shown, name) && text(shown, other)
        }
        Request::Serve {
            name,
            to,
            pace,
            from,
            until,
            live,
        } => {
            word(shown, "serve")
                && text(shown, name)
                && (to.is_empty() && word(shown, "-") || addresses(shown, to))
                && number(shown, u64::from(*pace))
                && number(shown, u64::from(*from))
                && until_shown(shown, *until)
                && live_shown(shown, live)
        }
        Request::Air {
            name,
            script,
            window,
        } => {
            word(shown, "air")
                && text(shown, name)
                && text(shown, script)
                && number(shown, u64::from(*window))
        }
        Request::Show => word(shown, "show"),
        Request::Convert {
            carry,
            window,
            reach,
            first,
            frames,
        } => {
            word(shown, "convert")
                && carry_shown(shown, *carry)
                && rules(shown, *window, *reach, *first, *frames)
        }
        Request::Exercise { n } => word(shown, "exercise") && number(shown, u64::from(*n)),
        Request::Receive { .. } | Request::Count { .. } | Request::Gate { .. } => {
            show_receiver(shown, request)
        }
        Request::Pack { .. } | Request::Unpack { .. } | Request::Texts { .. } => {
            show_data(shown, request)
        }
    }
}

fn show_receiver(shown: &mut String, request: &Request) -> bool {
    match request {
        Request::Receive {
            addresses,
            window,
            reach,
            first,
            frames,
            idle,
            limit,
        } => {
            word(shown, "receive")
                && addresses_if(shown, addresses)
                && rules(shown, *window, *reach, *first, *frames)
                && number(shown, u64::from(*idle))
                && number(shown, u64::from(*limit))
        }
        Request::Count {
            address,
            window,
            reach,
            first,
            frames,
            idle,
            limit,
        } => {
            word(shown, "count")
                && address_if(shown, address)
                && rules(shown, *window, *reach, *first, *frames)
                && number(shown, u64::from(*idle))
                && number(shown, u64::from(*limit))
        }
        Request::Gate {
            from,
            to,
            carry,
            window,
            reach,
            first,
            frames,
            idle,
            limit,
        } => {
            word(shown, "gate")
                && address(shown, ' ', from)
                && addresses(shown, to)
                && carry_shown(shown, *carry)
                && rules(shown, *window, *reach, *first, *frames)
                && number(shown, u64::from(*idle))
                && number(shown, u64::from(*limit))
        }
        _ => word(shown, "no receiver"),
    }
}

fn addresses_if(shown: &mut String, told: &Option<Addresses>) -> bool {
    match told {
        Some(list) => addresses(shown, list),
        None => word(shown, "-"),
    }
}

fn address_if(shown: &mut String, told: &Option<Address>) -> bool {
    match told {
        Some(told) => address(shown, ' ', told),
        None => word(shown, "-"),
    }
}

fn show_data(shown: &mut String, request: &Request) -> bool {
    match request {
        Request::Pack { pid, length } => {
            word(shown, "pack")
                && number(shown, u64::from(*pid))
                && number(shown, u64::from(*length))
        }
        Request::Unpack {
            stream,
            pid,
            length,
            window,
            reach,
            first,
            frames,
        } => {
            word(shown, "unpack")
                && number(shown, u64::from(*stream))
                && number(shown, u64::from(*pid))
                && number(shown, u64::from(*length))
                && rules(shown, *window, *reach, *first, *frames)
        }
        Request::Texts {
            stream,
            window,
            reach,
            first,
            frames,
        } => {
            word(shown, "texts")
                && number(shown, u64::from(*stream))
                && rules(shown, *window, *reach, *first, *frames)
        }
        _ => word(shown, "no data"),
    }
}

// Whether the request is shown so, behind a space.
fn is_shown(alloc: Global, request: &Request, expected: &str) -> bool {
    let mut shown = String::new(alloc);
    show(&mut shown, request) && shown.as_str().strip_prefix(' ') == Some(expected)
}

fn are_asked(alloc: Global, words: &[String], expected: &str) -> bool {
    match read_words(alloc, words) {
        Ok(request) => is_shown(alloc, &request, expected),
        Err(_) => false,
    }
}

// Whether the words of this line ask for what is shown so, and no mistake is found in them.
fn ask(alloc: Global, line: &str, expected: &str) -> bool {
    let mut words = Vec::new(alloc);
    put_words(alloc, line, &mut words)
        && are_asked(alloc, &words, expected)
        && words_mistake(alloc, &words).is_none()
}

fn is_right(alloc: Global, line: &str) -> bool {
    match line.split_once(" > ") {
        Some((words, asked)) => ask(alloc, words, asked),
        None => false,
    }
}

// The first line that asks for something else.
fn wrong_line(alloc: Global, lines: &str) -> Option<usize> {
    for (k, line) in lines.split_terminator('\n').enumerate() {
        if !is_right(alloc, line) {
            return Some(k);
        }
    }
    None
}

#[test]
fn reads_what_words_ask_for(rt: HostRuntime) {
    has_none(&rt, wrong_line(rt.alloc(), ASKED));
    // A schedule without a name.
    assert!(rt; ask(rt.alloc(), "|check|", "check "));
}
