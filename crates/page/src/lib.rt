// A page of text that is written out once it is full: few calls of the system for many small parts. What is added to a page goes as far as the
// page has room; `make_room` sees to it that there is enough.
#![tactic(auto)]

ghost use Rattle.std.specs.Prelude.{◌≡◌, ◌+◌, ◌%◌, ◌≤◌, min, length, replicate};
ghost use Rattle.io.specs.Digits.{last_digits, hex_digit_ascii};
ghost use Rattle.page.specs.Page.{Added, roomy};
ghost use Rattle.page.specs.Numbers.{decimal, sixteen, six_decimals, bar};

// Adds the bytes to the page's text, as far as the page has room, and answers where the text then ends.
pub fn append(page: &mut [u8], used: usize, bytes: &[u8]) -> usize
    ensures { Added page.old used bytes.now page.new result }
{
    if page.len() < used {
        return page.len();
    }
    let fits = bytes.len().min(page.len() - used);
    let end = used + fits;
    page[used..end].copy_from_slice(&bytes[..fits]);
    end
}

// Adds a whole number by its fewest digits.
pub fn append_decimal(page: &mut [u8], used: usize, n: u64) -> usize
    ensures { Added page.old used (decimal n) page.new result }
{
    let mut text = [0u8; 20];
    let k = io::decimal(n, &mut text);
    append(page, used, &text[..k])
}

// Adds a number's sixteen hexadecimal digits.
pub fn append_hex(page: &mut [u8], used: usize, n: u64) -> usize
    ensures { Added page.old used (sixteen n) page.new result }
{
    let mut text = [0u8; 16];
    let k = io::hex(n, 16, &mut text);
    append(page, used, &text[..k])
}

fn last_digit(n: u64) -> u8
    ensures { result ≡ hex_digit_ascii (n % 10) }
{
    let d = n % 10;
    48 + d as u8
}

fn six_digits(n: u64) -> [u8; 6]
    ensures { result ≡ last_digits 10 6 n }
{
    let a = n / 10;
    let b = a / 10;
    let c = b / 10;
    let d = c / 10;
    let e = d / 10;
    [
        last_digit(e),
        last_digit(d),
        last_digit(c),
        last_digit(b),
        last_digit(a),
        last_digit(n),
    ]
}

// Adds a number of millionths: the whole part, a point and six digits.
pub fn append_millionths(page: &mut [u8], used: usize, n: u64) -> usize
    ensures { Added page.old used (six_decimals n) page.new result }
{
    let whole = append_decimal(page, used, n / 1000000);
    let point = append(page, whole, b".");
    append(page, point, &six_digits(n))
}

fn mark_count(n: u64) -> usize
    ensures { result ≡ min n 60 }
{
    n.min(60) as usize
}

// Adds a bar for the eye: n marks, and 60 at most.
pub fn append_bar(page: &mut [u8], used: usize, n: u64) -> usize
    ensures { Added page.old used (bar n) page.new result }
{
    let marks = [b'#'; 60];
    let k = mark_count(n);
    append(page, used, &marks[..k])
}

// Writes the page's text to standard output, and answers whether that went well: where not, standard error has why.
pub fn write_out(rt: HostRuntime, page: &[u8], used: usize) -> bool {
    if page.len() < used {
        return false;
    }
    match rt.write_all(&page[..used]) {
        Ok(()) => true,
        Err(e) => {
            let _ = eprintln!(rt; "write: {e}");
            false
        }
    }
}

// The room that the longest line takes: a plan of 1,024 sequences.
pub const LINE: usize = 32768;

// Where the next line starts: where the page has too little room for one more, its text is written out and the page is empty again.
pub fn make_room(rt: HostRuntime, page: &[u8], used: usize) -> usize
    ensures { result ≡ roomy (length page.now) used }
{
    if page.len() < used {
        return 0;
    }
    if page.len() - used < LINE {
        write_out(rt, page, used);
        return 0;
    }
    used
}
