//! Texts of small games.
use std::alloc::{AllocError, Global};

/// Matching pennies on a grid of 2.
pub const PENNIES_2: &str = "\
fosg 1
grid 2
horizon 1
memory acts
token -
world toss
one s1 s2
two s1 s2
row s1 s1
to 1 win - - -
row s1 s2
to 1 lose - - -
row s2 s1
to 1 lose - - -
row s2 s2
to 1 win - - -
end win 1
end lose -1
root toss
done
";

/// The second row before the first.
pub const PENNIES_2_EXCHANGED: &str = "\
fosg 1
grid 2
horizon 1
memory acts
token -
world toss
one s1 s2
two s1 s2
row s1 s2
to 1 lose - - -
row s1 s1
to 1 win - - -
row s2 s1
to 1 lose - - -
row s2 s2
to 1 win - - -
end win 1
end lose -1
root toss
done
";

/// Without the second row of the world in line 6.
pub const PENNIES_2_SHORT: &str = "\
fosg 1
grid 2
horizon 1
memory acts
token -
world toss
one s1 s2
two s1 s2
row s1 s1
to 1 win - - -
row s2 s1
to 1 lose - - -
row s2 s2
to 1 win - - -
end win 1
end lose -1
root toss
done
";

/// Three actions against two, ends on both sides of the world, two tokens.
pub const THREE_BY_TWO: &str = "\
fosg 1
grid 5
horizon 1
memory seen
token -
token t.1
end a -3
world w
one l m r
two x y
row l x
to 1 a - t.1 -
row l y
to 1 b - - -
row m x
to 1 b t.1 t.1 t.1
row m y
to 1 c - - -
row r x
to 1 a - - -
row r y
to 1 b - - -
end b 1048576
end c -1048576
root w
done
";

/// One action against three.
pub const ONE_BY_THREE: &str = "\
fosg 1
grid 7
horizon 1
memory acts
token x
world w
one only
two a b c
row only a
to 1 e x x x
row only b
to 1 f x x x
row only c
to 1 e x x x
end e -7
end f 12
root w
done
";

/// Seat 2 takes 1 at once or goes in and is shown a colour; seat 1 then chooses unseeing.
pub const FORK: &str = "\
fosg 1
grid 3
horizon 2
memory acts
token -
token in
token out
token red
token blue
world start
one .
two out in
row . out
to 1 lose - - out
row . in
to 1 warm - red in
to 1 cold - blue in
world warm
one l r
two .
row l .
to 1 lose - - -
row r .
to 1 win - - -
world cold
one l r
two .
row l .
to 1 lose - - -
row r .
to 1 tie - - -
end win 1
end lose -1
end tie 0
root start
done
";

/// Four steps with a weight of 65536 each.
pub const CHAIN: &str = "\
fosg 1
grid 2
horizon 4
memory acts
token -
world a
one .
two .
row . .
to 65536 b - - -
world b
one .
two .
row . .
to 65536 c - - -
world c
one .
two .
row . .
to 65536 d - - -
world d
one .
two .
row . .
to 65536 e - - -
end e 1
root a
done
";

/// A world that leads to itself.
pub const LOOP: &str = "\
fosg 1
grid 2
horizon 3
memory acts
token -
world a
one .
two .
row . .
to 1 a - - -
root a
done
";

/// A world that leads to itself twice.
pub const DOUBLING: &str = "\
fosg 1
grid 2
horizon 32
memory acts
token -
world a
one .
two .
row . .
to 1 a - - -
to 1 a - - -
root a
done
";

/// Two worlds that look alike, with other actions.
pub const DIFFERS: &str = "\
fosg 1
grid 2
horizon 2
memory acts
token -
world start
one .
two .
row . .
to 1 x - - -
to 1 y - - -
world x
one l r
two .
row l .
to 1 e - - -
row r .
to 1 e - - -
world y
one l
two .
row l .
to 1 e - - -
end e 0
root start
done
";

/// A seat that is not shown what it did.
pub const FORGETS: &str = "\
fosg 1
grid 2
horizon 2
memory seen
token -
world start
one a b
two .
row a .
to 1 x - - -
row b .
to 1 x - - -
world x
one .
two .
row . .
to 1 e - - -
end e 0
root start
done
";

/// Goofspiel with two cards.
pub const GOOFSPIEL_2: &str = "\
fosg 1
grid 12
horizon 2
memory acts
token -
token win1
token win2
token tie
world g-12-12-0
one 1 2
two 1 2
row 1 1
to 1 g-2-2-0 - - tie
row 1 2
to 1 g-2-1-m2 - - win2
row 2 1
to 1 g-1-2-2 - - win1
row 2 2
to 1 g-1-1-0 - - tie
world g-1-1-0
one 1
two 1
row 1 1
to 1 e-0 - - tie
world g-1-2-2
one 1
two 2
row 1 2
to 1 e-1 - - win2
world g-2-1-m2
one 2
two 1
row 2 1
to 1 e-m1 - - win1
world g-2-2-0
one 2
two 2
row 2 2
to 1 e-0 - - tie
end e-m1 -1
end e-0 0
end e-1 1
root g-12-12-0
done
";

/// A text with another line at a number, from 1.
pub fn with_line(
    alloc: Global,
    text: &str,
    number: usize,
    line: &str,
) -> Result<String, AllocError> {
    let mut changed = String::new(alloc);
    for (at, kept) in text.lines().enumerate() {
        changed.push_str(if at + 1 == number { line } else { kept })?;
        changed.push('\n')?;
    }
    Ok(changed)
}
