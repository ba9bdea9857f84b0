// The generator of test loads, and the circle that it shuffles.
#![tactic(auto)]

ghost use Rattle.std.specs.Prelude.{◌≡◌, ◌≤◌, ◌-◌, length};
ghost use Rattle.spec_load.specs.TestLoad.{next_state, state_after, drawn, shuffled, circle};
ghost use Rattle.spec_orders.specs.Lists.{numbers_from};

// Marsaglia's xorshift32.
#[derive(Drop)]
pub struct Generator {
    pub state: u32,
}

// The generator in its next state, and the number drawn.
#[derive(Drop)]
pub struct Draw {
    pub next: Generator,
    pub number: usize,
}

impl Generator {
    // Draws a number from 1 to k: the next state modulo k, plus 1.
    pub fn draw(self, k: usize) -> Draw
        requires { 1 ≤ k }
        ensures { (result.next.state ≡ next_state self.state) × (result.number ≡ drawn self.state k) }
    {
        let x = self.state;
        let a = x ^ (x << 13);
        let b = a ^ (a >> 17);
        let c = b ^ (b << 5);
        Draw {
            next: Generator { state: c },
            number: (c as usize) % k + 1,
        }
    }
}

// Puts bin i on place i, for each place from 1 on.
fn number_places(places: &mut [u16])
    requires { length places.old ≤ 256 }
    ensures { places.new ≡ numbers_from 1 (length places.old) }
{
    for (i, place) in places.iter_mut().enumerate() {
        *place = (i + 1) as u16;
    }
}

// Exchanges place i, from the last one down to 2, with the place drawn from k = i. Returns the generator in its next state.
fn shuffle(generator: Generator, places: &mut [u16]) -> Generator
    ensures { (result.state ≡ state_after (length places.old - 1) generator.state)
        × (places.new ≡ shuffled (length places.old) generator.state places.old) }
{
    let mut from = generator;
    for i in (1..places.len()).rev() {
        let draw = from.draw(i + 1);
        places.swap(i, draw.number - 1);
        from = draw.next;
    }
    from
}

// Puts the bins 1 to n, one on each place, round the circle of a test load. Returns the generator in its next state.
pub fn circle(generator: Generator, places: &mut [u16]) -> Generator
    requires { length places.old ≤ 256 }
    ensures { (result.state ≡ state_after (length places.old - 1) generator.state)
        × (places.new ≡ circle (length places.old) generator.state) }
{
    number_places(places);
    shuffle(generator, places)
}
