// Rows as they are shown.
ghost use Rattle.std.specs.Prelude.{◌≡◌, ◌<◌, take};
ghost use Rattle.token_list.specs.Text.{printable};
ghost use Rattle.output.specs.Writes.{Writes};
ghost use Rattle.explanation.specs.Row.{hex_digit, shown_byte, shown, blank, column};

use output::writer::Writer;

fn is_printable(b: u8) -> bool
    ensures { result ≡ printable b }
{
    (b' '..=b'~').contains(&b)
}

fn hex_digit(n: u8) -> u8
    requires { n < 16 }
    ensures { result ≡ hex_digit n }
{
    if n < 10 { b'0' + n } else { b'a' + (n - 10) }
}

// A byte as it stands, or as `\xNN`.
fn put_shown(w: &mut Writer, b: u8)
    ensures { Writes w.old w.new (shown_byte b) }
{
    if is_printable(b) {
        w.byte(b);
    } else {
        w.bytes(b"\\x");
        w.byte(hex_digit(b / 16));
        w.byte(hex_digit(b % 16));
    }
}

// The first bytes of a row, `most` of them.
pub fn put_row(w: &mut Writer, row: &[u8], most: usize)
    ensures { Writes w.old w.new (shown (take most row.now)) }
{
    for b in row.iter().take(most) {
        put_shown(w, *b);
    }
}

// A blank where n is below the bound.
fn put_blank(w: &mut Writer, n: usize, bound: usize)
    ensures { Writes w.old w.new (blank n bound) }
{
    if n < bound {
        w.byte(b' ');
    }
}

// A number with blanks in front, in a column of four.
pub fn put_column(w: &mut Writer, n: usize)
    ensures { Writes w.old w.new (column n) }
{
    put_blank(w, n, 1000);
    put_blank(w, n, 100);
    put_blank(w, n, 10);
    w.number(n);
}
