// The header: its unit of time, how it is to be read, and its variables.
use streams::say;

fn write_comment(pull_up: bool) {
    say(b"$timescale 1 us $end\n$comment\n");
    say(b"A wait takes its time, every other action 1 us. An IOG cycle counts as 1 us.\n");
    if pull_up {
        say(
            b"A released line is 1, and SCK before its first exchange as that begins. Around a sample a line has the level sampled.\nThe ports are shown bit by bit.\n",
        );
    } else {
        say(b"A released line is z. Around a sample it has the level sampled.\n");
    }
    say(b"$end\n");
}

// The variables of the lines, three in a write.
const LINES: [&[u8]; 3] = [
    b"$var wire 1 A SCL $end\n$var wire 1 B SDA $end\n$var wire 1 C CS $end\n",
    b"$var wire 1 D SCK $end\n$var wire 1 E MOSI $end\n$var wire 1 F MISO $end\n",
    b"$var wire 1 G SS $end\n$var wire 1 H DQ $end\n$var wire 1 I PB7 $end\n",
];

// Those of the direction and latch registers, two in a write.
const REGISTERS: [&[u8]; 3] = [
    b"$var wire 8 J DDRB $end\n$var wire 8 K PORTB $end\n",
    b"$var wire 8 L DDRC $end\n$var wire 8 M PORTC $end\n",
    b"$var wire 8 N DDRD $end\n$var wire 8 O PORTD $end\n",
];

// The registers by identifier and name, for their bits.
const BITWISE: [(u8, &[u8]); 6] = [
    (b'J', b"DDRB"),
    (b'K', b"PORTB"),
    (b'L', b"DDRC"),
    (b'M', b"PORTC"),
    (b'N', b"DDRD"),
    (b'O', b"PORTD"),
];

// A register's bits, each with the register's identifier and its number.
fn write_bits(identifier: u8, name: &[u8]) {
    for number in b'0'..b'8' {
        say(b"$var wire 1 ");
        say(&[identifier, number, b' ']);
        say(name);
        say(&[number]);
        say(b" $end\n");
    }
}

// Everything before the first values. With pull-ups the registers are written bit by bit, since some readers take no value of more
// than one bit.
pub fn write_header(pull_up: bool) {
    write_comment(pull_up);
    say(b"$scope module bridge $end\n");
    for variables in LINES {
        say(variables);
    }
    if pull_up {
        for (identifier, name) in BITWISE {
            write_bits(identifier, name);
        }
    } else {
        for variables in REGISTERS {
            say(variables);
        }
    }
    say(b"$upscope $end\n$enddefinitions $end\n#0\n$dumpvars\n");
}
