// The sheet of the taps in some bytes.
#![tactic(auto)]

ghost use Rattle.std.specs.Prelude.{◌+◌, ◌≤◌, length};
ghost use Rattle.refusal.specs.Answer.{given};
ghost use Rattle.build_steps.specs.TapRows.{built};
ghost use Rattle.sheet_lines.specs.Inner.{area_bytes};
ghost use Rattle.sheet_input.specs.Argument.{argument_of};
ghost use Rattle.sheet_text.specs.Sheet.{choices, sheet_answer, SheetWritten};
ghost use Rattle.sheet_text.specs.Inner.{Coefficients, SheetOrRefusal};

use network::NetworkTables;
use refusal::Refusal;
pub use sheet_lines::AREA;
use text::Writer;

// The sheet of coefficients, all choices 0. Nothing is turned down here.
fn coefficient_sheet(to: &mut Writer, coefficients: &[i32]) -> Result<(), Refusal>
    requires { Coefficients coefficients.now × (to.old.at + area_bytes ≤ length to.old.area.now) }
    ensures { SheetOrRefusal to.old (given (built coefficients.now choices)) result to.new }
{
    let choices = [0u32; 256];
    let mut rows = [0u32; network::ROW_TABLE];
    let mut taps = [0u32; network::TAP_TABLE];
    let n = build_network::build(coefficients, &choices, &mut rows, &mut taps)?;
    let network = NetworkTables {
        rows: &rows,
        row_count: n as usize,
        taps: &taps,
        tap_count: coefficients.len(),
    };
    sheet_kinds::network_sheet(to, network, coefficients);
    Ok(())
}

// The sheet of the whole taps of the input.
fn tap_sheet(to: &mut Writer, input: &[u8], argument: Option<&[u8]>) -> Result<(), Refusal>
    requires { to.old.at + area_bytes ≤ length to.old.area.now }
    ensures { SheetOrRefusal to.old (sheet_answer input.now (argument_of argument.entry)) result to.new }
{
    let fraction_bits = sheet_input::fraction_bits(input, argument)?;
    let n = input.len() / 8;
    let mut taps = [0.0f64; 256];
    sheet_input::read_taps(input, &mut taps);
    let mut coefficients = [0i32; 256];
    tap_set::round_taps(&taps[..n], fraction_bits, false, &mut coefficients)?;
    coefficient_sheet(to, &coefficients[..n])
}

// The sheet of an input and the program's first argument, at the start of the area, and its length.
pub fn sheet(out: &mut [u8; AREA], input: &[u8], argument: Option<&[u8]>) -> usize
    ensures { SheetWritten input.now (argument_of argument.entry) out.old result out.new }
{
    let mut to = Writer { area: out, at: 0 };
    if let Err(refusal) = tap_sheet(&mut to, input, argument) {
        sheet_kinds::refused_sheet(&mut to, refusal);
    }
    to.at
}
