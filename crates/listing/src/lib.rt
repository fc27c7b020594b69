// The text that the program prints: the listing of what the search answers.
#![tactic(auto)]

ghost use Rattle.listing.specs.Listing.{Printed};

// Searches a file and puts the listing of the answer; returns where it ends.
pub fn listing(text: &mut [u8; 358400], file: &[u8], answer: &mut [u8; 16384]) -> usize
    ensures { Printed file.now answer.old answer.new text.old text.new result }
{
    match search::search(file, answer) {
        Ok(count) => {
            // A file that was searched can be read.
            let table = table::read(file).unwrap();
            report::put_answer(text, file, table, answer, count)
        }
        Err(refusal) => {
            lines::refused_line(text, 0, codes::cause_number(refusal.cause), refusal.place)
        }
    }
}
