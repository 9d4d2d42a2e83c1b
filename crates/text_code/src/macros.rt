//! Words for writing the patterns of a table as constants. A macro names what stands in scope where it is called:
//! `END`, `Name`, `Pattern`, `Spot`, the module `names`, and the slots that it is given.

/// Slots, and behind them the end, up to the 24 places of a pattern.
#[macro_export]
macro_rules! padded {
    ([$($slot:ident),*]) => {
        $crate::padded!(@ $($slot)*
            END END END END END END END END END END END END END END END END END END END END END END END END)
    };
    (@ $a:ident $b:ident $c:ident $d:ident $e:ident $f:ident $g:ident $h:ident $i:ident $j:ident $k:ident $l:ident
        $m:ident $n:ident $o:ident $p:ident $q:ident $r:ident $s:ident $t:ident $u:ident $v:ident $w:ident $x:ident
        $($rest:ident)*) => {
        [$a, $b, $c, $d, $e, $f, $g, $h, $i, $j, $k, $l, $m, $n, $o, $p, $q, $r, $s, $t, $u, $v, $w, $x]
    };
}

/// A pattern.
#[macro_export]
macro_rules! pattern {
    ($name:ident, $base:literal, $slots:tt) => {
        Pattern { name: names::$name, base: $base, slots: $crate::padded!($slots) }
    };
}

/// Names, each with the places of its patterns: the line's in the table, and the pattern's in the line.
#[macro_export]
macro_rules! names {
    ($($name:literal: $($line:literal $place:literal),*;)*) => {
        [$(Name { name: $name, spots: &[$(Spot { line: $line, place: $place }),*] }),*]
    };
}
