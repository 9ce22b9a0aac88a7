// A field's line, with its line feed, at a place of a lent buffer, item by item. Hosts do not call it: it asks that the buffer has room for the line.
#![tactic(auto)]

ghost use Rattle.std.specs.Prelude.{◌≡◌, ◌∷◌, ◌++◌, ◌+◌, ◌≤◌, length};
ghost use Rattle.text.specs.Over.{over};
ghost use Rattle.text.specs.Decimal.{decimal};
ghost use Rattle.dollars.specs.Dollars.{amount, sign_of, price_text};
ghost use Rattle.names.specs.Names.{metal_name, instrument_name};
ghost use Rattle.line_reader.specs.Lines.{side_text};
ghost use Rattle.line_reader.specs.laws.Pieces.{form_text};
ghost use Rattle.tape.specs.Tape.{line_text};
ghost use Rattle.field.specs.declared.Field.TheVariants as F;
ghost use Rattle.line_writer.specs.laws.Laying.{Lays};

use field::{Field, Form, Price};
use names::{instrument_name, metal_name};
use text::put_bytes;

// A lent buffer, and the place in it that the next bytes go to.
#[derive(Drop)]
struct Line<'a> {
    buf: &'a mut [u8],
    at: usize,
}

impl<'a> Line<'a> {
    // Bytes at the place, which is then behind them.
    fn put(&mut self, s: &[u8])
        ensures { Lays self.old self.new s.now }
    {
        if let Some(next) = put_bytes(self.buf, self.at, s) {
            self.at = next;
        }
    }

    // A number in decimal.
    fn number(&mut self, n: u32)
        ensures { Lays self.old self.new (decimal n) }
    {
        let mut digits = [0u8; 20];
        let k = io::decimal(n as u64, &mut digits);
        self.put(&digits[..k]);
    }

    // Dollars with two decimals and no sign.
    fn amount(&mut self, cents: u32)
        ensures { Lays self.old self.new (amount cents) }
    {
        let tens = (cents / 10 % 10) as u8;
        let units = (cents % 10) as u8;
        self.number(cents / 100);
        self.put(&[b'.', b'0' + tens, b'0' + units]);
    }

    // A minus, where the number is negative.
    fn sign(&mut self, cents: i32)
        ensures { Lays self.old self.new (sign_of cents) }
    {
        if cents < 0 {
            self.put(b"-");
        }
    }

    fn price(&mut self, price: Price)
        ensures { Lays self.old self.new (price_text price.cents) }
    {
        let cents = price.cents;
        self.sign(cents);
        self.amount(cents.unsigned_abs());
    }

    // A side of a quote, or a dash.
    fn side(&mut self, present: bool, price: Price)
        ensures { Lays self.old self.new (side_text present price) }
    {
        if present {
            self.price(price)
        } else {
            self.put(b"-")
        }
    }

    fn metal(&mut self, metal: u8)
        ensures { Lays self.old self.new (metal_name metal) }
    {
        self.put(metal_name(metal).as_bytes());
    }

    fn instrument(&mut self, instrument: u8)
        ensures { Lays self.old self.new (instrument_name instrument) }
    {
        self.put(instrument_name(instrument).as_bytes());
    }

    // What a header's form puts behind its marks: a long one's third value.
    fn form(&mut self, form: Form)
        ensures { Lays self.old self.new (form_text form) }
    {
        if let Form::Long(third) = form {
            self.put(b",");
            self.number(third as u32);
        }
    }

    fn header(&mut self, metal: u8, marks: u16, form: Form)
        ensures { Lays self.old self.new (line_text (F.Header metal marks form)) }
    {
        self.put(b"METAL,");
        self.metal(metal);
        self.put(b",");
        self.number(marks as u32);
        self.form(form);
        self.put(b"\n");
    }

    fn previous(&mut self, instrument: u8, price: Price)
        ensures { Lays self.old self.new (line_text (F.PreviousClose instrument price)) }
    {
        self.put(b"PREV,");
        self.instrument(instrument);
        self.put(b",");
        self.price(price);
        self.put(b"\n");
    }

    // The two items that trades and quotes begin with.
    fn stamp(&mut self, time: u32, instrument: u8)
        ensures { Lays self.old self.new (decimal time ++ 44 ∷ instrument_name instrument) }
    {
        self.number(time);
        self.put(b",");
        self.instrument(instrument);
    }

    fn trade(&mut self, time: u32, instrument: u8, price: Price, lots: u16)
        ensures { Lays self.old self.new (line_text (F.Trade time instrument price lots)) }
    {
        self.stamp(time, instrument);
        self.put(b",TRADE,");
        self.price(price);
        self.put(b",");
        self.number(lots as u32);
        self.put(b"\n");
    }

    fn quote(&mut self, time: u32, instrument: u8, sides: u8, bid: Price, offer: Price)
        ensures { Lays self.old self.new (line_text (F.Quote time instrument sides bid offer)) }
    {
        self.stamp(time, instrument);
        self.put(b",QUOTE,");
        self.side(sides % 2 == 1, bid);
        self.put(b",");
        self.side(sides / 2 % 2 == 1, offer);
        self.put(b"\n");
    }

    // A field's line; an end has none.
    fn field(&mut self, field: Field)
        ensures { Lays self.old self.new (line_text field) }
    {
        match field {
            Field::Header { metal, marks, form } => self.header(metal, marks, form),
            Field::PreviousClose { instrument, price } => self.previous(instrument, price),
            Field::Trade {
                time,
                instrument,
                price,
                lots,
            } => self.trade(time, instrument, price, lots),
            Field::Quote {
                time,
                instrument,
                sides,
                bid,
                offer,
            } => self.quote(time, instrument, sides, bid, offer),
            Field::End { .. } => {}
        }
    }
}

// A field's line at a place, and the place behind it; an end has none.
pub fn put_line(buf: &mut [u8], at: usize, field: Field) -> usize
    requires { at + length (line_text field) ≤ length buf.old }
    ensures value { result ≡ at + length (line_text field) }
    ensures buf_after { buf.new ≡ over buf.old at (line_text field) }
{
    let mut line = Line { buf, at };
    line.field(field);
    line.at
}
