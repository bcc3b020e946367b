// The script that `rehearse` has inside: a phrase with pedal on its own instrument, a second being 44,100 samples.
pub fn script() -> &'static [u8] {
    b"\
        # A broken chord, held by the pedal.\n\
        insert 0 pedal down\n\
        insert 0 on 36 2.6\n\
        insert 4000 off 36\n\
        insert 5512 on 48 2.2\n\
        insert 9000 off 48\n\
        insert 11025 on 60 2.8\n\
        insert 15000 off 60\n\
        insert 16537 on 64 2.6\n\
        insert 20000 off 64\n\
        insert 22050 on 67 2.8\n\
        insert 26000 off 67\n\
        insert 27562 on 72 3.2\n\
        insert 31000 off 72\n\
        insert 66150 pedal up\n\
        state\n\
        # The first second, a cue, and on.\n\
        play 44100\n\
        cue\n\
        state\n\
        insert 49612 on 55 3\n\
        insert 53000 off 55\n\
        insert 55125 on 67 2.6\n\
        insert 60000 off 67\n\
        play 44100\n\
        state\n\
        # Back to the cue: nothing is replayed, and the count of contacts steps back with the piano.\n\
        go 44100\n\
        state\n\
        play 22050\n\
        state\n\
        # A cut: the note at 49,612 goes. The position falls back to the cue before it.\n\
        remove 13\n\
        state\n\
        # Another bass note at 40,000, before the cue: the cue is lost, and all is silent at 0.\n\
        insert 40000 on 43 2.8\n\
        state\n\
        go 33075\n\
        state\n\
        play 65536\n\
        state\n"
}
