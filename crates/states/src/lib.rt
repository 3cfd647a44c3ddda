// The state and the short pairs of every partition of a drive, in one call, as numbers in two lent
// arrays: what a caller of the library asks a drive. The map is judged once for all partitions. The
// definitions are in `specs/States`, the laws in `specs/Laws`. It rests on `drive`, `map`, `partition`
// and `refusal`, and below them on `cache`, `context`, `endian` and `laws`.
#![tactic(auto)]

ghost use Rattle.std.specs.Prelude.{◌≡◌, ◌≤◌, length};
ghost use Rattle.context.specs.State.{outcome};
ghost use Rattle.map.specs.Map.{header_of};
ghost use Rattle.states.specs.States.{state_number, states_after, shorts_after, lists, listing_of};

use drive::Drive;
use partition::State;
use refusal::Refusal;

// A state as a number. Kept as a match: the numbers are C's, and a cast would tie them to the order of the cases.
fn number_of(state: State) -> u32
    ensures { result ≡ state_number state }
{
    match state {
        State::Erased => 0,
        State::Torn => 1,
        State::Blank => 2,
        State::Programmed => 3,
    }
}

// Lists the partitions of a drive that was judged, and says how many they are.
fn put_states(drive: Drive, states: &mut [u32], shorts: &mut [u32]) -> u32
    requires { (16 ≤ length states.old) × (16 ≤ length shorts.old) }
    ensures { (result ≡ (header_of drive.entry.image.now).partitions) × (states.new ≡ states_after drive.entry.image.now drive.entry.cells.now states.old) × (shorts.new ≡ shorts_after drive.entry.image.now drive.entry.cells.now shorts.old) }
{
    let partitions = map::read_header(drive.image).partitions as u32;
    for i in 0..partitions {
        let survey = drive.survey(i);
        states[i as usize] = number_of(survey.state);
        shorts[i as usize] = survey.short as u32;
    }
    partitions
}

// How many partitions there are, and the state and the short pairs of each in the front of the two arrays,
// whose further places keep their numbers: refusals 1 and 2, which write nothing. The arrays stay two: C lends
// them so (include/sciambrunola.h).
pub fn list_states(
    image: &[u8],
    cells: &[u32],
    marks: &[u32],
    states: &mut [u32; 16],
    shorts: &mut [u32; 16],
) -> Result<u32, Refusal>
    ensures { outcome result (lists states.new shorts.new)
        ≡ listing_of image.now cells.now marks.now (lists states.old shorts.old) }
{
    drive::check_drive(image, cells, marks)?;
    Ok(put_states(Drive { image, cells }, states, shorts))
}
