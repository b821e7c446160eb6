// A tick line: the word, then a field for each input wire. At which field a function begins is its clause, since it moves on.
ghost use Rattle.std.specs.Prelude.{◌≡◌, ◌+◌, length};
ghost use Rattle.text.specs.Pieces.{fields_of};
ghost use Rattle.text.specs.Results.{mapped};
ghost use Rattle.text.specs.Walk.{fields_in};
ghost use Rattle.draft.specs.Walk.{Before};
ghost use Rattle.bench.specs.TickLines.{tick_line, inputs_in, Into};

use machine::answers::Given;
use marks::mark::input;
use marks::value::Value;
use text::fault::Fault;
use text::fields::Fields;

// The fields after the word of a line that has one for each input.
fn read_inputs<V: Value>(fields: &mut Fields, inputs: &mut [Option<Given<V>>]) -> Result<(), Fault>
    requires { Before fields.old (length inputs.old + 1) 1 }
    ensures answer { result ≡ mapped (λ _. tt) (inputs_in V.Value.valued fields.old.number 1 (length inputs.old) (fields_in fields.old)) }
    ensures inputs { Into (inputs_in V.Value.valued fields.old.number 1 (length inputs.old) (fields_in fields.old)) inputs.new }
{
    for slot in inputs.iter_mut() {
        let field = fields.next_field();
        *slot = fields.place(input(field))?;
    }
    Ok(())
}

// Reads line `number` of a list into `inputs`, one for each input wire; a refused line may leave anything there.
pub(crate) fn read_tick<V: Value>(
    line: &[u8],
    number: usize,
    inputs: &mut [Option<Given<V>>],
) -> Result<(), Fault>
    ensures answer { result ≡ mapped (λ _. tt) (tick_line V.Value.valued number (length inputs.old) (fields_of line.now)) }
    ensures inputs { Into (tick_line V.Value.valued number (length inputs.old) (fields_of line.now)) inputs.new }
{
    let mut fields = Fields::of(line, number);
    fields.next_word(b"tick")?;
    fields.expect_count(inputs.len() + 1)?;
    read_inputs(&mut fields, inputs)
}
