// A walk along next words, by what the words stand for. It goes through at most as many nodes as are taken, since a
// longer one comes to some node twice and would never end.
ghost use Rattle.std.specs.Prelude.{◌≡◌};
ghost use Rattle.memory.specs.Lent.{seen_of};
ghost use Rattle.walks.specs.Walked.{led_to, counted, walked, laid};

use memory::view::Memory;
use records::entries::Node;
use refusals::refusal::Refusal;

// The node to which a word leads: none from nil.
fn led_to(memory: &Memory<'_>, word: u32) -> Result<Option<Node>, Refusal>
    ensures { result ≡ led_to (seen_of memory.now) word }
{
    let place = memory.stands_for(word)?;
    if place == 0 {
        return Ok(None);
    }
    memory.node(place).map(Some)
}

// How many parcels lie along next words from a word on.
pub fn count_parcels(memory: &Memory<'_>, from: u32) -> Result<usize, Refusal>
    ensures { result ≡ counted (walked (seen_of memory.now) memory.now.nodes_taken from) }
{
    let mut word = from;
    // the number of the turn is the answer
    for count in 0..=memory.nodes_taken() as usize {
        match led_to(memory, word)? {
            Some(node) => word = node.next,
            None => return Ok(count),
        }
    }
    Err(Refusal::Torn)
}

// Writes them into `parcels` from its front on, as many as it has room for; answers how many there are. The count comes
// first, so that a walk that is torn writes nothing.
pub fn copy_parcels(memory: &Memory<'_>, from: u32, parcels: &mut [u32]) -> Result<usize, Refusal>
    ensures answer { result ≡ counted (walked (seen_of memory.now) memory.now.nodes_taken from) }
    ensures after { parcels.new ≡ laid (walked (seen_of memory.now) memory.now.nodes_taken from) parcels.old }
{
    let count = count_parcels(memory, from)?;
    let mut word = from;
    for parcel in parcels.iter_mut() {
        let Some(node) = led_to(memory, word)? else {
            break;
        };
        *parcel = node.parcel;
        word = node.next;
    }
    Ok(count)
}

#[cfg(test)]
mod tests {
    use super::*;

    fn of_two(nodes: &[Node]) -> Memory<'_> {
        Memory::new(&[], nodes, 2, &[], 0)
    }

    #[test]
    fn walks_to_nil_or_is_torn(rt: HostRuntime) {
        let first = Node {
            next: 2,
            parcel: 70,
        };
        let chain = [
            first,
            Node {
                next: 0,
                parcel: 90,
            },
        ];
        let ring = [
            first,
            Node {
                next: 1,
                parcel: 90,
            },
        ];
        let mut parcels = [0u32; 3];
        assert_eq!(rt; count_parcels(&of_two(&chain), 1), Ok(2));
        assert_eq!(rt; copy_parcels(&of_two(&chain), 1, &mut parcels), Ok(2));
        assert_eq!(rt; parcels, [70, 90, 0]);
        assert_eq!(rt;
            copy_parcels(&of_two(&ring), 1, &mut parcels),
            Err(Refusal::Torn)
        );
        assert_eq!(rt; parcels, [70, 90, 0]);
    }
}
