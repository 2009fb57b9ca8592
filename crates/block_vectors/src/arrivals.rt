// An arrival block of document 003's example: its header, its four lines and a closing line. The printed example has lost its columns,
// so each line is laid out by the table "Automatic Arrival Format".

// Values are those printed, and blank where none is. Marks that scanning changed are as in the other lines; the one channel printed is the
// phase's.
pub const BLOCK: [u8; 1021] = *b"\
    Net       Sta   BeamID          Date       Time      Phase     Azim  Slow   SNR       Amp   Per   STA   Dur Author       DetID    Agy   Deploy   Ln Auth  Rep   PCh ACh L   Lat       Lon     Elev    Depth\n\
    IDC_SEIS  BBB   BP0.5_4.0    1996/08/16 03:41:40.523 P        256.3  16.2  13.4     228.6  0.33   4.5   0.2 IDC_REB   11618391411 ISC   IR          TAP   TAP   ???        24.4453  121.7783    37.0    0.0\n\
    IDC_SEIS  BBB   BP0.2_1.0    1996/08/16 03:42:04.531 S        334.7  18.6   8.2     338.6  0.33   9.1   1.2 IDC_REB   11618393412 ISC   IR          TAP   TAP   ???        24.4453  121.7783    37.0    0.0\n\
    IDC_SEIS  DLBC  BP0.2_2.0    1996/08/16 03:42:58.584 P        166.7  16.5  16.5       1.5  0.33   2.0   0.4 IDC_REB   11618396413 ISC   IR          TAP   TAP   ???        24.4280  121.7410   113.0    0.0\n\
    IDC_SEIS  DLBC  BP0.4_6.0    1996/08/16 03:44:59.808                                                        IDC_REB   11621022414 ISC   IR          TAP   TAP   ???        24.4280  121.7410   113.0    0.0\n\
    \n";
