// Numbers and lines as text in ASCII, written into a lent buffer.
#![tactic(auto)]

ghost use Rattle.std.specs.Prelude.{◌≡◌, ◌∷◌, ◌+◌, ◌*◌, ◌≤◌};
ghost use Rattle.laws.specs.Usual.{length};
ghost use Rattle.copying.specs.Pasted.{pasted};
ghost use Rattle.text.specs.Decimal.{decimal_of};
ghost use Rattle.text.specs.Lines.{comma, numbers_of, line_of};

// Writes the number in decimal from octet `at` of the output on, and answers the octet behind it.
pub fn put_decimal(number: u32, output: &mut [u8], at: usize) -> usize
    requires { at + 10 ≤ length output.old }
    ensures value { result ≡ at + length (decimal_of number) }
    ensures output_after { output.new ≡ pasted output.old at (decimal_of number) }
{
    let digit = (48 + number % 10) as u8;
    if number < 10 {
        output[at] = digit;
        return at + 1;
    }
    let last = put_decimal(number / 10, output, at);
    output[last] = digit;
    last + 1
}

// Writes a comma and the number.
fn put_number(number: u32, output: &mut [u8], at: usize) -> usize
    requires { at + 11 ≤ length output.old }
    ensures value { result ≡ at + length (comma ∷ decimal_of number) }
    ensures output_after { output.new ≡ pasted output.old at (comma ∷ decimal_of number) }
{
    output[at] = b',';
    put_decimal(number, output, at + 1)
}

fn put_numbers(numbers: &[u32], output: &mut [u8], at: usize) -> usize
    requires { at + 11 * length numbers.now ≤ length output.old }
    ensures value { result ≡ at + length (numbers_of numbers.now) }
    ensures output_after { output.new ≡ pasted output.old at (numbers_of numbers.now) }
{
    let mut end = at;
    for &number in numbers {
        end = put_number(number, output, end);
    }
    end
}

// Writes a line in front of the output, and answers its length.
pub fn put_line(word: &[u8], numbers: &[u32], output: &mut [u8]) -> usize
    requires { length word.now + 11 * length numbers.now + 1 ≤ length output.old }
    ensures value { result ≡ length (line_of word.now numbers.now) }
    ensures output_after { output.new ≡ pasted output.old 0 (line_of word.now numbers.now) }
{
    copying::copy_into(word, output, 0);
    let end = put_numbers(numbers, output, word.len());
    output[end] = b'\n';
    end + 1
}
